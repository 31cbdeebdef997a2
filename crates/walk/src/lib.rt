// The walk over a strip keeps the strip's bytes, in their order, with its next place.
#![tactic(auto)]

ghost use Rattle.std.specs.Prelude.{◌≡◌};
ghost use Rattle.strip_header.specs.Header.{section_by_number};
ghost use Rattle.strip_records.specs.Held.{held, Filled};
ghost use Rattle.strip_read.specs.Read.{read_section, lists_after};
ghost use Rattle.walk.specs.Walk.{place_after, step_at, moved_on};

use core_read::error::Refusal;
use core_read::reader::Source;
use strip::lists::Lists;
use strip::read::{Section, SectionRead};
use strip::record::Record;

#[derive(Clone, Copy)]
pub struct Walk<'a> {
    pub source: Source<'a>,
    pub place: usize,
}

// What the section read gives, and the place that the walk hands on. The answer stands beside the record, as document 01 has it.
#[derive(Clone, Copy)]
pub struct Step {
    pub answer: Result<Section, Refusal>,
    pub record: Record,
    pub place: usize,
}

#[tactic(auto, unfolding(crate::specs::Walk::place_after))]
fn place_after(place: usize, answer: Result<Section, Refusal>) -> usize
    ensures { result ≡ place_after place answer }
{
    match answer {
        Ok(Section::End) => place,
        Ok(Section::Passed { next }) => next,
        Ok(Section::Pane { next, .. }) => next,
        Err(_) => place,
    }
}

impl<'a> Walk<'a> {
    // A walk over a strip, from a place.
    pub fn over(source: Source<'a>, place: usize) -> Walk<'a>
        ensures { (result.source ≡ source.entry) × (result.place ≡ place) }
    {
        Walk { source, place }
    }

    // The section at the walk's place. The walk moves on to the next; it stays at the end, and where the read is refused.
    // No `Iterator` has this `next`: it is lent the lists anew at each step, and says which section it met where it stays.
    pub fn next<'s, 'l, 't>(&'s mut self, lists: &'t mut Lists<'l>) -> SectionRead
        ensures value { result ≡ read_section self.old.source.order self.old.source.«data».now self.old.place (held lists.old) }
        ensures lists_after { Filled lists.old lists.new (lists_after self.old.source.order self.old.source.«data».now self.old.place (held lists.old)) }
        ensures moved { self.new ≡ moved_on self.old (held lists.old) }
        ensures answer_value { section_by_number result.answer ≡ section_by_number (read_section self.old.source.order self.old.source.«data».now self.old.place (held lists.old)).answer }
    {
        let place = self.place;
        let read = strip::read::read_section(self.source, place, lists);
        self.place = place_after(place, read.answer);
        read
    }
}

// The step of a walk for a caller that holds the strip and the place itself.
pub fn section_after<'a, 'l, 't>(source: Source<'a>, place: usize, lists: &'t mut Lists<'l>) -> Step
    ensures value { result ≡ step_at source.entry.order source.entry.«data».now place (held lists.old) }
    ensures lists_after { Filled lists.old lists.new (lists_after source.entry.order source.entry.«data».now place (held lists.old)) }
    ensures answer_value { section_by_number result.answer ≡ section_by_number (step_at source.entry.order source.entry.«data».now place (held lists.old)).answer }
{
    let mut walk = Walk::over(source, place);
    let read = walk.next(lists);
    Step {
        answer: read.answer,
        record: read.record,
        place: walk.place,
    }
}
