// The body calls of a base pane: any bytes are read or refused, any pane is written or refused.
ghost use Rattle.std.specs.Prelude.{◌≡◌, ◌+◌, ◌^◌, ◌<◌, length, Ok};
ghost use Rattle.core_checks.specs.Answered.{Clears};
ghost use Rattle.core_checks.specs.Checks.{body_start, end_checked, parsed_by_number, written_by_number};
ghost use Rattle.pane_checks.specs.Checks.{names_checked, reserve_checked};
ghost use Rattle.core_read.specs.Steps.{Took};
ghost use Rattle.pane.specs.Body.{pane_measured, pane_read, pane_parsed, pane_written, pane_output};

use core_checks::checks;
use core_read::cursor::ByteOrder;
use core_read::error::Refusal;
use core_read::reader::{Reader, Source};
use core_write::writer::Writer;
use pane_checks::checks::{names_checked, reserve_checked, texts_checked};
use pane_read::Pane;
use pane_read::parsed::Parsed;

// All reads, check 7 and, in a section, check 19.
#[tactic(auto, using(core_checks::proofs::Checked::reach_stays), unfolding(crate::specs::Body::pane_measured, pane_checks::specs::Checks::texts_checked, core_read::specs::Taken::stop_if))]
pub fn measure<'a, 's>(
    r: &'s mut Reader<'a>,
    place: usize,
    extent: Option<usize>,
) -> Result<Pane, Refusal>
    requires { place < 2 ^ 32 }
    ensures { Took r.old r.new result (λ order s p. pane_measured order s p place extent) }
{
    let pane = r.take::<Pane>()?;
    texts_checked(pane, place)?;
    checks::reach_checked(r.cursor, extent)?;
    Ok(pane)
}

// The read in a buffer or in a section.
#[tactic(auto, unfolding(crate::specs::Body::pane_read, crate::specs::Body::pane_given, core_checks::specs::Checks::unless_refused))]
pub fn read<'a>(mut r: Reader<'a>, place: usize, extent: Option<usize>) -> Parsed<()>
    requires { place < 2 ^ 32 }
    ensures { result ≡ pane_read r.entry.source.order r.entry.source.«data».now (Ok r.entry.cursor) place extent }
{
    match measure(&mut r, place, extent) {
        Ok(base) => Parsed::accepted(r.cursor, base, ()),
        Err(why) => Parsed::refused(why),
    }
}

// The pane at a place: checks 1, 2, the reads with 4, then 7.
#[tactic(auto, using(crate::proofs::Calls::start_small, crate::proofs::Calls::measured_stays), unfolding(crate::specs::Body::pane_parsed, crate::specs::Body::pane_read, crate::specs::Body::pane_given, core_checks::specs::Checks::unless_refused))]
pub fn parse<'a>(source: Source<'a>, place: usize) -> Parsed<()>
    ensures value { result ≡ pane_parsed source.entry.order source.entry.«data».now place }
    ensures answer_value { parsed_by_number result.answer ≡ parsed_by_number (pane_parsed source.entry.order source.entry.«data».now place).answer }
{
    match checks::body_start(source.data.len(), place) {
        Ok(cursor) => read(Reader { source, cursor }, place, None),
        Err(why) => Parsed::refused(why),
    }
}

// 1, 2, 9, 10 and 16 of a body of a width.
#[tactic(auto, using(core_checks::proofs::Checked::body_started), unfolding(pane_checks::specs::Checks::names_checked, pane_checks::specs::Checks::reserve_checked, core_checks::specs::Checks::end_checked, core_read::specs::Taken::stop_if))]
pub fn write_checked(b: Pane, width: usize, length: usize, place: usize) -> Result<(), Refusal>
    requires { width < 2 ^ 32 }
    ensures { Clears result (end_checked (reserve_checked (names_checked (body_start length place) b) b) (place + width) length) place }
{
    checks::body_start(length, place)?;
    names_checked(b)?;
    reserve_checked(b)?;
    checks::end_checked(place, width, length)
}

// The pane at a place: checks 1, 2, 9, 10, 16. A refusal leaves the output as it was; an accepted write answers its end, and changes no byte but its own.
#[tactic(auto, using(crate::proofs::Cleared::write_cleared, crate::proofs::Cleared::sound), unfolding(crate::specs::Body::pane_write_checked, crate::specs::Body::pane_written, crate::specs::Body::pane_output, core_checks::specs::Checks::written_of, core_checks::specs::Checks::unless_refused))]
pub fn write(order: ByteOrder, b: Pane, out: &mut [u8], place: usize) -> Result<usize, Refusal>
    ensures value { result ≡ pane_written b (length out.old) place }
    ensures out_after { out.new ≡ pane_output order b out.old place }
    ensures result_value { written_by_number result ≡ written_by_number (pane_written b (length out.old) place) }
{
    write_checked(b, 76, out.len(), place)?;
    let mut w = Writer { order, out, place };
    crate::put_pane(&mut w, b);
    Ok(w.place)
}
