// What a section read answers, and where it starts: the checks before it, and the header of the section.
#![tactic(auto)]

ghost use Rattle.std.specs.Prelude.{◌≡◌, ◌≤◌, length};
ghost use Rattle.core_read.specs.Steps.{Took};
ghost use Rattle.core_read.specs.Taken.{start};
ghost use Rattle.strip_header.specs.Header.{read_start, header_taken};

use core_checks::checks;
use core_read::cursor::{ByteOrder, Place};
use core_read::error::{NumberList, Refusal};
use core_read::reader::{Reader, Source};

// What a section read finds: the end; a section of another kind, with the next section's place; or a pane, with the place after its body, the next section's and how far its read looked.
#[derive(Clone, Copy)]
pub enum Section {
    End,
    Passed {
        next: usize,
    },
    Pane {
        end: usize,
        next: usize,
        reach: usize,
    },
}

#[derive(Clone, Copy)]
pub struct Header {
    pub letters: u32,
    pub size: usize,
}

// 1, 2 and 3, of lists of these lengths: what lends the lists stands in a crate above.
#[tactic(auto, unfolding(crate::specs::Header::read_start, core_checks::specs::Checks::list_checked, core_read::specs::Taken::stop_if))]
pub fn read_start(
    length: usize,
    place: usize,
    quads: usize,
    units: usize,
    lines: usize,
    frames: usize,
) -> Place
    ensures { result ≡ read_start length place quads units lines frames }
{
    let start = checks::section_start(length, place)?;
    checks::list_checked(NumberList::Quads, 2040, quads)?;
    checks::list_checked(NumberList::Units, 32767, units)?;
    checks::list_checked(NumberList::Lines, 510, lines)?;
    checks::list_checked(NumberList::Frames, 510, frames)?;
    Ok(start)
}

// Letters and size, and check 8: by a reader that stands at the section. The letters are bytes in a row, whatever the order.
#[tactic(auto, unfolding(crate::specs::Header::header_taken, crate::specs::Header::size_bad, core_read::specs::Taken::number_taken, core_read::specs::Taken::stop_if))]
pub fn take_header<'a, 's>(r: &'s mut Reader<'a>, place: usize) -> Result<Header, Refusal>
    requires { (r.old.cursor ≡ start place) × (place ≤ length r.old.source.«data».now) × (length r.old.source.«data».now ≤ 16777216) }
    ensures { Took r.old r.new result (λ order s p. header_taken order s place) }
{
    let source = Source {
        order: ByteOrder::Little,
        data: r.source.data,
    };
    let cursor = r.cursor;
    let mut little = Reader { source, cursor };
    let letters: u32 = little.number()?;
    r.cursor = little.cursor;
    let word: u32 = r.number()?;
    let size = word as usize;
    let length = r.source.data.len();
    if size < 8 || 0 < size % 4 || length - place < size {
        return Err(Refusal::SectionSize {
            place: place + 4,
            size,
        });
    }
    Ok(Header { letters, size })
}
