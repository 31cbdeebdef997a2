// The body calls of an alignment pane: any bytes are read or refused, any pane is written or refused.
ghost use Rattle.std.specs.Prelude.{◌≡◌, ◌^◌, ◌<◌, length, Ok};
ghost use Rattle.core_checks.specs.Checks.{parsed_by_number, written_by_number};
ghost use Rattle.core_read.specs.Steps.{Took};
ghost use Rattle.core_write.specs.Puts.{HasRoom, Puts};
ghost use Rattle.pane_read.specs.Pane.{Sound};
ghost use Rattle.alignment.specs.Body.{encode_body, alignment_measured, alignment_read, alignment_parsed, alignment_written, alignment_output};

use alignment_fields::AlignmentPane;
use core_checks::checks;
use core_read::cursor::ByteOrder;
use core_read::error::Refusal;
use core_read::reader::{Reader, Source};
use core_write::writer::Writer;
use pane_checks::checks::texts_checked;
use pane_read::Pane;
use pane_read::parsed::{Measured, Parsed};

// All reads, check 7 and, in a section, check 19.
#[tactic(auto, using(core_checks::proofs::Checked::reach_stays), unfolding(crate::specs::Body::alignment_measured, alignment_fields::specs::Alignment::alignment_taken, core_read::specs::Taken::number_taken, pane_checks::specs::Checks::texts_checked, core_read::specs::Taken::stop_if))]
pub fn measure<'a, 's>(
    r: &'s mut Reader<'a>,
    place: usize,
    extent: Option<usize>,
) -> Result<Measured<AlignmentPane>, Refusal>
    requires { place < 2 ^ 32 }
    ensures { Took r.old r.new result (λ order s p. alignment_measured order s p place extent) }
{
    let base = r.take::<Pane>()?;
    let own = r.take::<AlignmentPane>()?;
    texts_checked(base, place)?;
    checks::reach_checked(r.cursor, extent)?;
    Ok(Measured { base, own })
}

// The read in a buffer or in a section.
#[tactic(auto, unfolding(crate::specs::Body::alignment_read, crate::specs::Body::alignment_given, core_checks::specs::Checks::unless_refused))]
pub fn read<'a>(mut r: Reader<'a>, place: usize, extent: Option<usize>) -> Parsed<AlignmentPane>
    requires { place < 2 ^ 32 }
    ensures { result ≡ alignment_read r.entry.source.order r.entry.source.«data».now (Ok r.entry.cursor) place extent }
{
    match measure(&mut r, place, extent) {
        Ok(m) => Parsed::accepted(r.cursor, m.base, m.own),
        Err(why) => Parsed::refused(why),
    }
}

// The alignment pane at a place: checks 1, 2, the reads with 4, then 7. As a base pane's: one function for both would take a trait and two impls.
#[tactic(auto, using(pane::proofs::Calls::start_small, crate::proofs::Calls::measured_stays), unfolding(crate::specs::Body::alignment_parsed, crate::specs::Body::alignment_read, crate::specs::Body::alignment_given, core_checks::specs::Checks::unless_refused))]
pub fn parse<'a>(source: Source<'a>, place: usize) -> Parsed<AlignmentPane>
    ensures value { result ≡ alignment_parsed source.entry.order source.entry.«data».now place }
    ensures answer_value { parsed_by_number result.answer ≡ parsed_by_number (alignment_parsed source.entry.order source.entry.«data».now place).answer }
{
    match checks::body_start(source.data.len(), place) {
        Ok(cursor) => read(Reader { source, cursor }, place, None),
        Err(why) => Parsed::refused(why),
    }
}

// The base, and what the kind adds.
pub fn put_body<'a, 's>(w: &'s mut Writer<'a>, b: Pane, a: AlignmentPane)
    requires { Sound b × HasRoom w.old 88 }
    ensures { Puts w.old w.new 88 (λ order. encode_body order b a) }
{
    pane::put_pane(w, b);
    alignment_fields::put_alignment(w, a);
}

// The alignment pane at a place: checks 1, 2, 9, 10, 16. A refusal leaves the output as it was; an accepted write answers its end, and changes no byte but its own.
#[tactic(auto, using(crate::proofs::Cleared::write_cleared, pane::proofs::Cleared::sound), unfolding(crate::specs::Body::alignment_write_checked, crate::specs::Body::alignment_written, crate::specs::Body::alignment_output, core_checks::specs::Checks::written_of, core_checks::specs::Checks::unless_refused))]
pub fn write(
    order: ByteOrder,
    b: Pane,
    a: AlignmentPane,
    out: &mut [u8],
    place: usize,
) -> Result<usize, Refusal>
    ensures value { result ≡ alignment_written b (length out.old) place }
    ensures out_after { out.new ≡ alignment_output order b a out.old place }
    ensures result_value { written_by_number result ≡ written_by_number (alignment_written b (length out.old) place) }
{
    pane::body::write_checked(b, 88, out.len(), place)?;
    let mut w = Writer { order, out, place };
    put_body(&mut w, b, a);
    Ok(w.place)
}
