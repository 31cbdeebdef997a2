// The body calls of a picture pane: any bytes are read or refused, any pane with its quads is written or refused.
ghost use Rattle.std.specs.Prelude.{◌≡◌, ◌^◌, ◌<◌, ◌≤◌, length, Ok};
ghost use Rattle.core_checks.specs.Answered.{Clears};
ghost use Rattle.core_checks.specs.Checks.{parsed_by_number, written_by_number};
ghost use Rattle.core_read.specs.Steps.{Took};
ghost use Rattle.core_read.specs.Taken.{over};
ghost use Rattle.core_write.specs.Puts.{HasRoom, Puts};
ghost use Rattle.pane_read.specs.Pane.{Sound};
ghost use Rattle.picture_fields.specs.Picture.{Measured as QuadsMeasured, GoodPicture, quads_of};
ghost use Rattle.picture.specs.Body.{picture_measured, picture_read, quads_read, picture_start, picture_parsed, quads_parsed, body_length, encode_body, picture_write_checked, picture_written, picture_output};

use core_checks::checks;
use core_read::cursor::{ByteOrder, Place};
use core_read::error::{NumberList, Refusal};
use core_read::reader::{Reader, Source};
use core_write::writer::Writer;
use pane_checks::checks::{names_checked, reserve_checked, texts_checked};
use pane_read::Pane;
use pane_read::parsed::{Measured, Parsed};
use picture_fields::{PictureFound, PicturePane};

// All reads, check 7 and, in a section, check 19.
#[tactic(auto, using(core_checks::proofs::Checked::reach_stays, crate::proofs::Came::picture_stays), unfolding(crate::specs::Body::picture_measured, pane_checks::specs::Checks::texts_checked, core_read::specs::Taken::stop_if))]
pub fn measure<'a, 's>(
    r: &'s mut Reader<'a>,
    place: usize,
    extent: Option<usize>,
) -> Result<Measured<PictureFound>, Refusal>
    requires { place < 2 ^ 32 }
    ensures { Took r.old r.new result (λ order s p. picture_measured order s p place extent) }
{
    let base = r.take::<Pane>()?;
    let own = picture_fields::measure_picture(r)?;
    texts_checked(base, place)?;
    checks::reach_checked(r.cursor, extent)?;
    Ok(Measured { base, own })
}

// The quads of a pane that was measured.
pub fn fill<'a>(source: Source<'a>, m: Measured<PictureFound>, quads: &mut [u32])
    requires { QuadsMeasured source.«data».now m.own (length quads.old) }
    ensures { quads.new ≡ over (quads_of source.entry.order source.entry.«data».now m.own) quads.old }
{
    picture_fields::fill_picture(source, m.own, quads);
}

// The read in a buffer or in a section, its quads only passed.
#[tactic(auto, unfolding(crate::specs::Body::picture_read, crate::specs::Body::picture_given, core_checks::specs::Checks::unless_refused))]
pub fn measured<'a>(mut r: Reader<'a>, place: usize, extent: Option<usize>) -> Parsed<PicturePane>
    requires { place < 2 ^ 32 }
    ensures { result ≡ picture_read r.entry.source.order r.entry.source.«data».now (Ok r.entry.cursor) place extent }
{
    match measure(&mut r, place, extent) {
        Ok(m) => Parsed::accepted(r.cursor, m.base, m.own.picture),
        Err(why) => Parsed::refused(why),
    }
}

// The same, with the quads at the front of the list where nothing was refused.
#[tactic(auto, unfolding(crate::specs::Body::picture_read, crate::specs::Body::quads_read, crate::specs::Body::quads_filled, crate::specs::Body::picture_given, core_checks::specs::Checks::unless_refused))]
pub fn read<'a>(
    mut r: Reader<'a>,
    place: usize,
    extent: Option<usize>,
    quads: &mut [u32],
) -> Parsed<PicturePane>
    requires { (place < 2 ^ 32) × (2040 ≤ length quads.old) }
    ensures value { result ≡ picture_read r.entry.source.order r.entry.source.«data».now (Ok r.entry.cursor) place extent }
    ensures quads_after { quads.new ≡ quads_read r.entry.source.order r.entry.source.«data».now (Ok r.entry.cursor) place extent quads.old }
{
    let m = match measure(&mut r, place, extent) {
        Ok(m) => m,
        Err(why) => return Parsed::refused(why),
    };
    fill(r.source, m, quads);
    Parsed::accepted(r.cursor, m.base, m.own.picture)
}

// 1, 2 and 3
#[tactic(auto, unfolding(crate::specs::Body::picture_start, core_checks::specs::Checks::list_checked, core_read::specs::Taken::stop_if))]
fn read_start(length: usize, place: usize, quads: usize) -> Place
    ensures { result ≡ picture_start length place quads }
{
    let c = checks::body_start(length, place)?;
    checks::list_checked(NumberList::Quads, 2040, quads)?;
    Ok(c)
}

// The picture pane at a place: checks 1, 2, 3, the reads with 4, then 7. The quads go to the front of the list where nothing was refused.
#[tactic(auto, using(crate::proofs::Calls::start_cleared, crate::proofs::Calls::measured_stays), unfolding(crate::specs::Body::picture_parsed, crate::specs::Body::quads_parsed, crate::specs::Body::picture_read, crate::specs::Body::quads_read, crate::specs::Body::quads_filled, crate::specs::Body::picture_given, core_checks::specs::Checks::unless_refused))]
pub fn parse<'a>(source: Source<'a>, place: usize, quads: &mut [u32]) -> Parsed<PicturePane>
    ensures value { result ≡ picture_parsed source.entry.order source.entry.«data».now place (length quads.old) }
    ensures quads_after { quads.new ≡ quads_parsed source.entry.order source.entry.«data».now place quads.old }
    ensures answer_value { parsed_by_number result.answer ≡ parsed_by_number (picture_parsed source.entry.order source.entry.«data».now place (length quads.old)).answer }
{
    match read_start(source.data.len(), place, quads.len()) {
        Ok(cursor) => read(Reader { source, cursor }, place, None, quads),
        Err(why) => Parsed::refused(why),
    }
}

// The bytes of the whole body.
#[tactic(auto, using(crate::proofs::Cleared::picture_short), unfolding(crate::specs::Body::body_length))]
pub fn body_length(x: PicturePane, quads: &[u32]) -> usize
    requires { GoodPicture quads.now }
    ensures { result ≡ body_length x quads.now }
{
    76 + picture_fields::picture_length(x, quads)
}

// 1, 2, 9, 10, 11 and 16
#[tactic(auto, using(core_checks::proofs::Checked::body_started, crate::proofs::Cleared::picture_let, crate::proofs::Cleared::body_short), unfolding(crate::specs::Body::picture_write_checked, pane_checks::specs::Checks::names_checked, pane_checks::specs::Checks::reserve_checked, picture_fields::specs::Picture::picture_checked, core_checks::specs::Checks::count_checked, core_checks::specs::Checks::end_checked, core_read::specs::Taken::stop_if))]
fn write_checked(
    b: Pane,
    x: PicturePane,
    quads: &[u32],
    length: usize,
    place: usize,
) -> Result<(), Refusal>
    ensures { Clears result (picture_write_checked b x quads.now length place) place }
{
    checks::body_start(length, place)?;
    names_checked(b)?;
    reserve_checked(b)?;
    picture_fields::picture_checked(quads)?;
    checks::end_checked(place, body_length(x, quads), length)
}

// The base, and what the kind adds.
#[tactic(auto, unfolding(crate::specs::Body::body_length))]
pub fn put_body<'a, 's>(w: &'s mut Writer<'a>, b: Pane, x: PicturePane, quads: &[u32])
    requires { Sound b × GoodPicture quads.now × HasRoom w.old (body_length x quads.now) }
    ensures { Puts w.old w.new (body_length x quads.now) (λ order. encode_body order b x quads.now) }
{
    pane::put_pane(w, b);
    picture_fields::put_picture(w, x, quads);
}

// The picture pane at a place: checks 1, 2, 9, 10, 11, 16. A refusal leaves the output as it was; an accepted write answers its end, and changes no byte but its own.
#[tactic(auto, using(crate::proofs::Cleared::write_cleared, pane::proofs::Cleared::sound), unfolding(crate::specs::Body::picture_written, crate::specs::Body::picture_output, core_checks::specs::Checks::written_of, core_checks::specs::Checks::unless_refused))]
pub fn write(
    order: ByteOrder,
    b: Pane,
    x: PicturePane,
    quads: &[u32],
    out: &mut [u8],
    place: usize,
) -> Result<usize, Refusal>
    ensures value { result ≡ picture_written b x quads.now (length out.old) place }
    ensures out_after { out.new ≡ picture_output order b x quads.now out.old place }
    ensures result_value { written_by_number result ≡ written_by_number (picture_written b x quads.now (length out.old) place) }
{
    write_checked(b, x, quads, out.len(), place)?;
    let mut w = Writer { order, out, place };
    put_body(&mut w, b, x, quads);
    Ok(w.place)
}
