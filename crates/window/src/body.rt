// The body calls of a window pane: any bytes are read or refused, any pane is written or refused.
ghost use Rattle.std.specs.Prelude.{◌≡◌, ◌*◌, ◌^◌, ◌≤◌, ◌<◌, length, Ok};
ghost use Rattle.core_checks.specs.Answered.{Clears};
ghost use Rattle.core_checks.specs.Checks.{parsed_by_number, written_by_number};
ghost use Rattle.core_read.specs.Bytes.{Room};
ghost use Rattle.core_read.specs.Steps.{Took};
ghost use Rattle.core_read.specs.Taken.{over};
ghost use Rattle.core_write.specs.Puts.{HasRoom, Puts};
ghost use Rattle.pane_read.specs.Pane.{Sound};
ghost use Rattle.window_write.specs.Write.{GoodWindow};
ghost use Rattle.window_read.specs.Window.{window_quads, window_frames};
ghost use Rattle.window.specs.Body.{window_measured, window_read, read_quads, read_frames, read_start, window_parsed, parsed_quads, parsed_frames, window_write_checked, body_length, encode_body, window_written, window_output};

use core_checks::checks;
use core_read::cursor::{ByteOrder, Place};
use core_read::error::{NumberList, Refusal};
use core_read::reader::{Reader, Source};
use core_write::writer::Writer;
use pane_checks::checks::{names_checked, reserve_checked, texts_checked};
use pane_read::Pane;
use pane_read::parsed::{Measured, Parsed};
use window_read::WindowPane;
use window_read::read::{WindowFound, fill_window, measure_window};
use window_write::write::{put_window, window_checked, window_length};

// All reads, check 7 and, in a section, check 19.
#[tactic(auto, using(core_checks::proofs::Checked::reach_stays, window_read::proofs::Run::window_stays), unfolding(crate::specs::Body::window_measured, pane_checks::specs::Checks::texts_checked, core_read::specs::Taken::stop_if))]
pub fn measure<'a, 's>(
    r: &'s mut Reader<'a>,
    place: usize,
    extent: Option<usize>,
) -> Result<Measured<WindowFound>, Refusal>
    requires { (8 ≤ place) × (place < 2 ^ 32) }
    ensures { Took r.old r.new result (λ order s p. window_measured order s p place extent) }
{
    let base = r.take::<Pane>()?;
    let own = measure_window(r, place)?;
    texts_checked(base, place)?;
    checks::reach_checked(r.cursor, extent)?;
    Ok(Measured { base, own })
}

// The quads and frames of a pane whose quads are there, as they are of one that was measured.
pub fn fill<'a>(
    source: Source<'a>,
    m: Measured<WindowFound>,
    place: usize,
    quads: &mut [u32],
    frames: &mut [u16],
)
    requires le_place { (8 ≤ place) × (place < 2 ^ 32) }
    requires ahead { Room source.«data».now m.own.quads.pos (4 * (8 * m.own.window.content.quad_count)) }
    requires in_bounds { (2040 ≤ length quads.old) × (510 ≤ length frames.old) }
    ensures quads_after { quads.new ≡ over (window_quads source.entry.order source.entry.«data».now m.own) quads.old }
    ensures frames_after { frames.new ≡ over (window_frames source.entry.order source.entry.«data».now m.own place) frames.old }
{
    fill_window(source, m.own, place, quads, frames);
}

// The read in a buffer or in a section, its lists only passed.
#[tactic(auto, unfolding(crate::specs::Body::window_read, crate::specs::Body::window_given, core_checks::specs::Checks::unless_refused))]
pub fn measured<'a>(mut r: Reader<'a>, place: usize, extent: Option<usize>) -> Parsed<WindowPane>
    requires { (8 ≤ place) × (place < 2 ^ 32) }
    ensures { result ≡ window_read r.entry.source.order r.entry.source.«data».now (Ok r.entry.cursor) place extent }
{
    match measure(&mut r, place, extent) {
        Ok(m) => Parsed::accepted(r.cursor, m.base, m.own.window),
        Err(why) => Parsed::refused(why),
    }
}

// The same, with the quads and the frames at the front of the lists where nothing was refused.
#[tactic(auto, unfolding(crate::specs::Body::window_read, crate::specs::Body::read_quads, crate::specs::Body::read_frames, crate::specs::Body::quads_filled, crate::specs::Body::frames_filled, crate::specs::Body::window_given, core_checks::specs::Checks::unless_refused))]
pub fn read<'a>(
    mut r: Reader<'a>,
    place: usize,
    extent: Option<usize>,
    quads: &mut [u32],
    frames: &mut [u16],
) -> Parsed<WindowPane>
    requires le_place { (8 ≤ place) × (place < 2 ^ 32) }
    requires in_bounds { (2040 ≤ length quads.old) × (510 ≤ length frames.old) }
    ensures value { result ≡ window_read r.entry.source.order r.entry.source.«data».now (Ok r.entry.cursor) place extent }
    ensures quads_after { quads.new ≡ read_quads r.entry.source.order r.entry.source.«data».now (Ok r.entry.cursor) place extent quads.old }
    ensures frames_after { frames.new ≡ read_frames r.entry.source.order r.entry.source.«data».now (Ok r.entry.cursor) place extent frames.old }
{
    let m = match measure(&mut r, place, extent) {
        Ok(m) => m,
        Err(why) => return Parsed::refused(why),
    };
    fill(r.source, m, place, quads, frames);
    Parsed::accepted(r.cursor, m.base, m.own.window)
}

// 1, 2 and 3
#[tactic(auto, unfolding(crate::specs::Body::read_start, core_checks::specs::Checks::list_checked, core_read::specs::Taken::stop_if))]
fn read_start(length: usize, place: usize, quads: &[u32], frames: &[u16]) -> Place
    ensures { result ≡ read_start length place quads.now frames.now }
{
    let c = checks::body_start(length, place)?;
    checks::list_checked(NumberList::Quads, 2040, quads.len())?;
    checks::list_checked(NumberList::Frames, 510, frames.len())?;
    Ok(c)
}

// The window pane at a place: checks 1, 2, 3, the reads with 4, then 7. A refusal leaves the lists as they were.
#[tactic(auto, using(crate::proofs::Calls::start_cleared, crate::proofs::Calls::measured_stays), unfolding(crate::specs::Body::window_parsed, crate::specs::Body::parsed_quads, crate::specs::Body::parsed_frames, crate::specs::Body::window_read, crate::specs::Body::read_quads, crate::specs::Body::read_frames, crate::specs::Body::quads_filled, crate::specs::Body::frames_filled, crate::specs::Body::window_given, core_checks::specs::Checks::unless_refused))]
pub fn parse<'a>(
    source: Source<'a>,
    place: usize,
    quads: &mut [u32],
    frames: &mut [u16],
) -> Parsed<WindowPane>
    ensures value { result ≡ window_parsed source.entry.order source.entry.«data».now place quads.old frames.old }
    ensures quads_after { quads.new ≡ parsed_quads source.entry.order source.entry.«data».now place quads.old frames.old }
    ensures frames_after { frames.new ≡ parsed_frames source.entry.order source.entry.«data».now place quads.old frames.old }
    ensures answer_value { parsed_by_number result.answer ≡ parsed_by_number (window_parsed source.entry.order source.entry.«data».now place quads.old frames.old).answer }
{
    match read_start(source.data.len(), place, quads, frames) {
        Ok(cursor) => read(Reader { source, cursor }, place, None, quads, frames),
        Err(why) => Parsed::refused(why),
    }
}

// 1, 2, 9, 10, 11, 12 and 16
#[tactic(auto, using(core_checks::proofs::Checked::body_started, window_write::proofs::Puts::window_stays, crate::proofs::Cleared::window_let), unfolding(crate::specs::Body::window_write_checked, crate::specs::Body::body_length, pane_checks::specs::Checks::names_checked, pane_checks::specs::Checks::reserve_checked, core_checks::specs::Checks::end_checked, core_read::specs::Taken::stop_if))]
fn write_checked(
    b: Pane,
    quads: &[u32],
    frames: &[u16],
    length: usize,
    place: usize,
) -> Result<(), Refusal>
    ensures { Clears result (window_write_checked b quads.now frames.now length place) place }
{
    checks::body_start(length, place)?;
    names_checked(b)?;
    reserve_checked(b)?;
    window_checked(quads, frames)?;
    let own = window_length(place, quads.len(), frames.len());
    checks::end_checked(place, 76 + own, length)
}

// The base, and what the kind adds.
pub fn put_body<'a, 's>(
    w: &'s mut Writer<'a>,
    b: Pane,
    x: WindowPane,
    quads: &[u32],
    frames: &[u16],
)
    requires sound { Sound b × GoodWindow quads.now frames.now × (w.old.place < 2 ^ 32) }
    requires room { HasRoom w.old (body_length w.old.place quads.now frames.now) }
    ensures { Puts w.old w.new (body_length w.old.place quads.now frames.now) (λ order. encode_body order w.old.place b x quads.now frames.now) }
{
    let body = w.place;
    pane::put_pane(w, b);
    put_window(w, x, quads, frames, body);
}

// The window pane at a place: checks 1, 2, 9, 10, 11, 12, 16. A refusal leaves the output as it was; an accepted write answers its end, and changes no byte but its own.
#[tactic(auto, using(crate::proofs::Calls::write_cleared, pane::proofs::Cleared::sound), unfolding(crate::specs::Body::window_written, crate::specs::Body::window_output, core_checks::specs::Checks::written_of, core_checks::specs::Checks::unless_refused))]
pub fn write(
    order: ByteOrder,
    b: Pane,
    x: WindowPane,
    quads: &[u32],
    frames: &[u16],
    out: &mut [u8],
    place: usize,
) -> Result<usize, Refusal>
    ensures value { result ≡ window_written b quads.now frames.now (length out.old) place }
    ensures out_after { out.new ≡ window_output order b x quads.now frames.now out.old place }
    ensures result_value { written_by_number result ≡ written_by_number (window_written b quads.now frames.now (length out.old) place) }
{
    write_checked(b, quads, frames, out.len(), place)?;
    let mut w = Writer { order, out, place };
    put_body(&mut w, b, x, quads, frames);
    Ok(w.place)
}
