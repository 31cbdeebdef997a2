// The read calls over the words of a record.
ghost use Rattle.std.specs.Prelude.{◌≡◌};
ghost use Rattle.strip_read.specs.Read.{read_section, lists_after};
ghost use Rattle.strip_records.specs.Held.{held, Filled};
ghost use Rattle.exports_answers.specs.Answers.{section_answer, section_told};
ghost use Rattle.exports_read.specs.Outcomes.{read_outcome, delivered, section_outcome, body_outcome};

use crate::{bodies, sections};
use core_read::error::Refusal;
use core_read::reader::{Reader, Source};
use exports_answers::answers;
use exports_answers::answers::Fault;
use flat::words::{Words, WordsMut};
use flat_records::records;
use strip_header::Section;
use strip_read::read::body_at;
use strip_records::lists::Lists;

// ---- a section

// The section at a place: checks 1, 2, 3, the end, the header, check 8, the body, checks 7 and 19.
fn read_in<'a, 'l, 't, 'w, 's>(
    source: Source<'a>,
    place: usize,
    lists: &'t mut Lists<'l>,
    words: &'s mut WordsMut<'w>,
) -> Result<Section, Refusal>
    ensures same_record { words.new.words.ghost_name ≡ words.old.words.ghost_name }
    ensures lists_after { Filled lists.old lists.new (lists_after source.entry.order source.entry.«data».now place (held lists.old)) }
    ensures delivered { read_outcome (section_answer result) words.new.words.now (held lists.new) ≡ delivered (read_section source.entry.order source.entry.«data».now place (held lists.old)) words.old.words.now (held lists.new) }
{
    let checked = strip_header::read_start(
        source.data.len(),
        place,
        lists.quads.len(),
        lists.units.len(),
        lists.lines.len(),
        lists.frames.len(),
    );
    match body_at(source, place, checked) {
        Ok(b) => {
            let cursor = b.run;
            let r = Reader { source, cursor };
            sections::read_kind(r, b.kind, place + 8, b.next, lists, words)
        }
        Err(answer) => answer,
    }
}

// BAD_ORDER, SHORT_RECORD, and then the section at a place.
#[tactic(auto, unfolding(crate::specs::Outcomes::section_outcome, exports_answers::specs::Answers::order_of))]
pub fn read_section<'l, 't>(
    order: u64,
    data: &[u8],
    place: usize,
    lists: &'t mut Lists<'l>,
    words: &mut [u64],
) -> Result<Section, Fault>
    ensures same_lists { Filled lists.old lists.new (held lists.new) }
    ensures outcome { read_outcome (section_told result) words.new (held lists.new) ≡ section_outcome order «data».now place (held lists.old) words.old }
{
    let order = answers::order_of(order)?;
    Words::of(words).ok_or(Fault::ShortRecord)?;
    let mut record = WordsMut { words };
    let found = read_in(Source { order, data }, place, lists, &mut record)?;
    Ok(found)
}

// ---- a body

// BAD_ORDER, SHORT_RECORD, BAD_WORD of the kind, and then its body at a place.
#[tactic(auto, unfolding(crate::specs::Outcomes::body_outcome, crate::specs::Outcomes::body_delivered, exports_answers::specs::Answers::order_of))]
pub fn read_body<'l, 't>(
    order: u64,
    kind: u64,
    data: &[u8],
    place: usize,
    lists: &'t mut Lists<'l>,
    words: &mut [u64],
) -> Result<Section, Fault>
    ensures same_lists { Filled lists.old lists.new (held lists.new) }
    ensures outcome { read_outcome (section_told result) words.new (held lists.new) ≡ body_outcome order kind «data».now place (held lists.old) words.old }
{
    let order = answers::order_of(order)?;
    Words::of(words).ok_or(Fault::ShortRecord)?;
    let k = records::kind_at(kind).ok_or(Fault::BadWord { index: 0 })?;
    let mut record = WordsMut { words };
    let found = bodies::parse_kind(Source { order, data }, k, place, lists, &mut record)?;
    Ok(found)
}
