// The checks that calls share: each answers the refusal where it is not passed.
ghost use Rattle.std.specs.Prelude.{◌≡◌, ◌+◌, ◌^◌, ◌≤◌, ◌<◌};
ghost use Rattle.core_checks.specs.Answered.{Lets, LetsAt};
ghost use Rattle.core_checks.specs.Checks.{length_checked, body_checked, section_checked, body_start, section_start, list_checked, count_checked, end_checked, reach_checked};

use core_read::cursor::{Cursor, Place};
use core_read::error::{NumberList, Refusal};

// 1: a buffer, or a label to write, that is too long.
#[tactic(auto, unfolding(crate::specs::Checks::length_checked, core_read::specs::Taken::stop_if))]
pub fn length_checked(length: usize) -> Result<(), Refusal>
    ensures { Lets result (λ p. length_checked p length) }
{
    if 16_777_216 < length {
        return Err(Refusal::TooLong { length });
    }
    Ok(())
}

// 2 of a body call.
#[tactic(auto, unfolding(crate::specs::Checks::body_checked, core_read::specs::Taken::stop_if))]
pub fn body_checked(length: usize, place: usize) -> Result<(), Refusal>
    ensures { Lets result (λ p. body_checked p length place) }
{
    if place < 8 || length < place {
        return Err(Refusal::BadPlace { place });
    }
    Ok(())
}

// 2 of a section call.
#[tactic(auto, unfolding(crate::specs::Checks::section_checked, core_read::specs::Taken::stop_if))]
pub fn section_checked(length: usize, place: usize) -> Result<(), Refusal>
    ensures { Lets result (λ p. section_checked p length place) }
{
    if length < place || 0 < place % 4 {
        return Err(Refusal::BadPlace { place });
    }
    Ok(())
}

// 1 and 2 of a body call. A place has no type of its own: one with what check 2 tells of it, 8 ≤ place < 2^32, would ask more of the functions that need but one of the two.
#[tactic(auto, unfolding(crate::specs::Checks::body_start, crate::specs::Checks::body_checked, core_read::specs::Taken::stop_if))]
pub fn body_start(length: usize, place: usize) -> Place
    ensures { result ≡ body_start length place }
{
    length_checked(length)?;
    body_checked(length, place)?;
    Ok(Cursor::start(place))
}

// 1 and 2 of a section call.
#[tactic(auto, unfolding(crate::specs::Checks::section_start, crate::specs::Checks::section_checked, core_read::specs::Taken::stop_if))]
pub fn section_start(length: usize, place: usize) -> Place
    ensures { result ≡ section_start length place }
{
    length_checked(length)?;
    section_checked(length, place)?;
    Ok(Cursor::start(place))
}

// 3: a lent list that is short.
#[tactic(auto, unfolding(crate::specs::Checks::list_checked, core_read::specs::Taken::stop_if))]
pub fn list_checked(list: NumberList, need: usize, length: usize) -> Result<(), Refusal>
    ensures { Lets result (λ p. list_checked p list need length) }
{
    if length < need {
        return Err(Refusal::ShortList { list, need });
    }
    Ok(())
}

// 11: a list to write that is not width times n numbers, n at most 255.
#[tactic(auto, unfolding(crate::specs::Checks::count_checked, crate::specs::Checks::count_bad, core_read::specs::Taken::stop_if))]
pub fn count_checked(list: NumberList, width: usize, length: usize) -> Result<(), Refusal>
    requires { (0 < width) × (width ≤ 8) }
    ensures { Lets result (λ p. count_checked p list width length) }
{
    if 0 < length % width || 255 * width < length {
        return Err(Refusal::ListLength { list, length });
    }
    Ok(())
}

// 16: the end of width bytes at a place, where it passes the output.
#[tactic(auto, unfolding(crate::specs::Checks::end_checked, core_read::specs::Taken::stop_if))]
pub fn end_checked(place: usize, width: usize, length: usize) -> Result<(), Refusal>
    requires { place + width < 2 ^ 64 }
    ensures { Lets result (λ p. end_checked p (place + width) length) }
{
    let end = place + width;
    if length < end {
        return Err(Refusal::OutputEnd { end, length });
    }
    Ok(())
}

// 19: a body that looked past its section.
#[tactic(auto, unfolding(crate::specs::Checks::reach_checked, core_read::specs::Taken::stop_if))]
pub fn reach_checked(c: Cursor, extent: Option<usize>) -> Result<(), Refusal>
    ensures { LetsAt result c (λ p. reach_checked p extent) }
{
    if let Some(end) = extent {
        let reach = c.reach;
        if end < reach {
            return Err(Refusal::PastSection { reach, end });
        }
    }
    Ok(())
}
