// The writes over the words of a record.
ghost use Rattle.std.specs.Prelude.{◌≡◌};
ghost use Rattle.strip_records.specs.Whole.{lists};
ghost use Rattle.exports_answers.specs.Answers.{written_told};
ghost use Rattle.exports.specs.Calls.{write_outcome, section_written, body_written};

use exports_answers::answers::{Fault, order_of};
use exports_parts::parts::record_checked;
use flat::layout;
use flat_records::records;
use flat_write::{bodies, sections};
use strip_records::lists::Content;

#[tactic(auto, unfolding(crate::specs::Calls::section_written, exports_parts::specs::Parts::of_record, exports_parts::specs::Parts::record_checked, exports_answers::specs::Answers::order_of))]
pub(crate) fn write_section(
    order: u64,
    words: &[u64],
    content: Content,
    out: &mut [u8],
    place: usize,
) -> Result<usize, Fault>
    ensures { write_outcome (written_told result) out.new ≡ section_written order words.now (lists content.entry.quads.now content.entry.units.now content.entry.lines.now content.entry.frames.now) content.entry.label.now out.old place }
{
    let order = order_of(order)?;
    let w = record_checked(words)?;
    let kind = records::kind_of(w.words[layout::KIND]);
    Ok(sections::write(order, kind, w, content, out, place)?)
}

// This and `write_section` stay two functions: by kind, the write that each calls calls functions that the other's does not, and each promises a definition of its own. One function for both would have to be handed its write, as a trait of five methods: a method for each kind, with a contract.
#[tactic(auto, unfolding(crate::specs::Calls::body_written, flat_records::specs::Records::record_by, exports_parts::specs::Parts::of_record, exports_parts::specs::Parts::record_checked, exports_answers::specs::Answers::order_of))]
pub(crate) fn write_body(
    order: u64,
    words: &[u64],
    content: Content,
    out: &mut [u8],
    place: usize,
) -> Result<usize, Fault>
    ensures { write_outcome (written_told result) out.new ≡ body_written order words.now (lists content.entry.quads.now content.entry.units.now content.entry.lines.now content.entry.frames.now) content.entry.label.now out.old place }
{
    let order = order_of(order)?;
    let w = record_checked(words)?;
    let kind = records::kind_of(w.words[layout::KIND]);
    Ok(bodies::write(order, kind, w, content, out, place)?)
}
