// The section read, with lists lent.
ghost use Rattle.std.specs.Prelude.{◌≡◌, ◌≤◌, length, Ok};
ghost use Rattle.strip_header.specs.Header.{section_by_number};
ghost use Rattle.strip_records.specs.Held.{held, Filled};
ghost use Rattle.strip_read.specs.Read.{answered_with, finished, body_at, with_blank, read_section, lists_after};
ghost use Rattle.core_read.specs.declared.cursor.Cursor.{Cursor};

use core_read::cursor::{Cursor, Place};
use core_read::error::Refusal;
use core_read::reader::{Reader, Source};
pub use strip_header::Section;
use strip_kinds::body::{BodyRead, read_kind};
use strip_records::kind::Kind;
use strip_records::lists::Lists;
use strip_records::record::{Record, blank_record};

// What a section read gives. The answer stands beside the record, which is blank unless a pane was read, as document 01 has it.
#[derive(Clone, Copy)]
pub struct SectionRead {
    pub answer: Result<Section, Refusal>,
    pub record: Record,
}

// An answer with no pane: its record is blank.
#[tactic(auto, unfolding(crate::specs::Read::answered_with))]
pub(crate) fn answered(answer: Result<Section, Refusal>) -> SectionRead
    ensures { result ≡ answered_with answer }
{
    SectionRead {
        answer,
        record: blank_record(),
    }
}

// A body that was read, as a section.
#[tactic(auto, unfolding(crate::specs::Read::finished, crate::specs::Read::refused_with, crate::specs::Read::answered_with))]
pub(crate) fn finish(read: BodyRead, next: usize) -> SectionRead
    ensures { result ≡ finished read.answer next read.«record» }
{
    let answer = read.answer;
    match answer {
        Ok(c) => {
            let record = read.record;
            let end = c.pos;
            let reach = c.reach;
            SectionRead {
                answer: Ok(Section::Pane { end, next, reach }),
                record,
            }
        }
        Err(why) => answered(Err(why)),
    }
}

// The body of a section: its kind, the run that stands at it, and where the next section begins.
#[derive(Clone, Copy)]
pub struct Body {
    pub kind: Kind,
    pub run: Cursor,
    pub next: usize,
}

// The body of the section at a place, once the checks before it were made, with lists lent or none: the end, the header, check 8. Where there is none to read, what the section read answers: beside the blank record that is what it gives.
#[tactic(auto, unfolding(crate::specs::Read::body_at, crate::specs::Read::body_in, crate::specs::Read::with_blank, crate::specs::Read::answered_with, crate::specs::Read::refused_with, crate::specs::Read::ended_with, crate::specs::Read::passed_with))]
pub fn body_at<'a>(
    source: Source<'a>,
    place: usize,
    checked: Place,
) -> Result<Body, Result<Section, Refusal>>
    requires { (c : Cursor) → checked ≡ Ok c → (place ≤ length source.«data».now) × (length source.«data».now ≤ 16777216) }
    ensures { with_blank result ≡ body_at source.entry.order source.entry.«data».now place checked }
{
    checked.map_err(Err)?;
    if place == source.data.len() {
        return Err(Ok(Section::End));
    }
    let mut r = source.reader(place);
    let header = strip_header::take_header(&mut r, place).map_err(Err)?;
    let next = place + header.size;
    let kind = Kind::of_letters(header.letters).ok_or(Ok(Section::Passed { next }))?;
    let run = r.cursor;
    Ok(Body { kind, run, next })
}

// The section at a place: checks 1, 2, 3, the end, the header, check 8, the body, checks 7 and 19. Lists change only where a pane is read.
pub fn read_section<'a, 'l, 's>(
    source: Source<'a>,
    place: usize,
    lists: &'s mut Lists<'l>,
) -> SectionRead
    ensures value { result ≡ read_section source.entry.order source.entry.«data».now place (held lists.old) }
    ensures lists_after { Filled lists.old lists.new (lists_after source.entry.order source.entry.«data».now place (held lists.old)) }
    ensures answer_value { section_by_number result.answer ≡ section_by_number (read_section source.entry.order source.entry.«data».now place (held lists.old)).answer }
{
    let checked = strip_header::read_start(
        source.data.len(),
        place,
        lists.quads.len(),
        lists.units.len(),
        lists.lines.len(),
        lists.frames.len(),
    );
    match body_at(source, place, checked) {
        Ok(b) => {
            let cursor = b.run;
            let r = Reader { source, cursor };
            let read = read_kind(r, b.kind, place + 8, Some(b.next), lists);
            finish(read, b.next)
        }
        Err(answer) => answered(answer),
    }
}
