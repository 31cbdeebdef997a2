// The body calls of a text box: any bytes are read or refused, any text box is written or refused.
ghost use Rattle.std.specs.Prelude.{◌≡◌, ◌+◌, ◌^◌, ◌≤◌, ◌<◌, length, Ok};
ghost use Rattle.core_checks.specs.Answered.{Clears};
ghost use Rattle.core_checks.specs.Checks.{parsed_by_number, written_by_number};
ghost use Rattle.core_read.specs.Steps.{Took};
ghost use Rattle.core_read.specs.Taken.{over};
ghost use Rattle.core_write.specs.Puts.{HasRoom, Puts};
ghost use Rattle.pane_read.specs.Pane.{Sound};
ghost use Rattle.text_box_read.specs.TextBox.{text_box_units, text_box_lines, Standing};
ghost use Rattle.text_box_write.specs.Written.{Small, text_box_length};
ghost use Rattle.text_box.specs.Body.{text_box_measured, text_box_read, text_box_start, Reads, encode_body, text_box_write_checked, text_box_written, text_box_output};

use core_checks::checks;
use core_read::cursor::{ByteOrder, Place};
use core_read::error::{NumberList, Refusal};
use core_read::reader::{Reader, Source};
use core_write::writer::Writer;
use pane_checks::checks::{names_checked, reserve_checked, texts_checked};
use pane_read::Pane;
use pane_read::parsed::{Measured, Parsed};
use text_box_read::{TextBoxFound, TextBoxPane};
use text_box_write::write;

// All reads, check 7 and, in a section, check 19.
#[tactic(auto, using(core_checks::proofs::Checked::reach_stays, text_box_read::proofs::Came::text_box_stays, crate::proofs::Calls::label_stays), unfolding(crate::specs::Body::text_box_measured, pane_checks::specs::Checks::texts_checked, core_read::specs::Taken::stop_if))]
pub fn measure<'a, 's>(
    r: &'s mut Reader<'a>,
    place: usize,
    extent: Option<usize>,
) -> Result<Measured<TextBoxFound>, Refusal>
    requires { (8 ≤ place) × (place < 2 ^ 32) }
    ensures { Took r.old r.new result (λ order s p. text_box_measured order s p place extent) }
{
    let base = r.take::<Pane>()?;
    let own = text_box_read::measure_text_box(r, place)?;
    texts_checked(base, place)?;
    text_box_checks::label_checked(r.source.data, own.text_box.label)?;
    checks::reach_checked(r.cursor, extent)?;
    Ok(Measured { base, own })
}

// The units and lines of a text box that was measured.
pub fn fill(source: Source, m: Measured<TextBoxFound>, units: &mut [u16], lines: &mut [u32])
    requires standing { Standing source.«data».now m.own }
    requires in_bounds { (32767 ≤ length units.old) × (510 ≤ length lines.old) }
    ensures units_after { units.new ≡ over (text_box_units source.entry.order source.entry.«data».now m.own) units.old }
    ensures lines_after { lines.new ≡ over (text_box_lines source.entry.order source.entry.«data».now m.own) lines.old }
{
    text_box_read::fill_text_box(source, m.own, units, lines);
}

// The read in a buffer or in a section, with no list filled.
#[tactic(auto, unfolding(crate::specs::Body::text_box_read, crate::specs::Body::text_box_given, core_checks::specs::Checks::unless_refused))]
pub fn measured<'a>(mut r: Reader<'a>, place: usize, extent: Option<usize>) -> Parsed<TextBoxPane>
    requires { (8 ≤ place) × (place < 2 ^ 32) }
    ensures { result ≡ text_box_read r.entry.source.order r.entry.source.«data».now (Ok r.entry.cursor) place extent }
{
    match measure(&mut r, place, extent) {
        Ok(m) => Parsed::accepted(r.cursor, m.base, m.own.text_box),
        Err(why) => Parsed::refused(why),
    }
}

// The same, with the lists filled.
#[tactic(auto, unfolding(crate::specs::Body::text_box_read, crate::specs::Body::units_after, crate::specs::Body::lines_after, crate::specs::Body::units_filled, crate::specs::Body::lines_filled, crate::specs::Body::text_box_given, core_checks::specs::Checks::unless_refused))]
pub fn read<'a>(
    mut r: Reader<'a>,
    place: usize,
    extent: Option<usize>,
    units: &mut [u16],
    lines: &mut [u32],
) -> Parsed<TextBoxPane>
    requires { (8 ≤ place) × (place < 2 ^ 32) × (32767 ≤ length units.old) × (510 ≤ length lines.old) }
    ensures { Reads r.entry.source.order r.entry.source.«data».now (Ok r.entry.cursor) place extent units.old lines.old result units.new lines.new }
{
    match measure(&mut r, place, extent) {
        Ok(m) => {
            fill(r.source, m, units, lines);
            Parsed::accepted(r.cursor, m.base, m.own.text_box)
        }
        Err(why) => Parsed::refused(why),
    }
}

// 1, 2 and 3
#[tactic(auto, using(core_checks::proofs::Checked::body_started), unfolding(crate::specs::Body::text_box_start, core_checks::specs::Checks::list_checked, core_read::specs::Taken::stop_if))]
fn read_start(length: usize, units: usize, lines: usize, place: usize) -> Place
    ensures { result ≡ text_box_start length units lines place }
{
    let c = checks::body_start(length, place)?;
    checks::list_checked(NumberList::Units, 32767, units)?;
    checks::list_checked(NumberList::Lines, 510, lines)?;
    Ok(c)
}

// The text box at a place: checks 1, 2, 3, the reads with 4, 5 and 6, then 7.
#[tactic(auto, using(crate::proofs::Calls::started, crate::proofs::Calls::measured_stays), unfolding(crate::specs::Body::text_box_read, crate::specs::Body::units_after, crate::specs::Body::lines_after, crate::specs::Body::units_filled, crate::specs::Body::lines_filled, crate::specs::Body::text_box_given, core_checks::specs::Checks::unless_refused))]
pub fn parse<'a>(
    source: Source<'a>,
    place: usize,
    units: &mut [u16],
    lines: &mut [u32],
) -> Parsed<TextBoxPane>
    ensures reads { Reads source.entry.order source.entry.«data».now (text_box_start (length source.entry.«data».now) (length units.old) (length lines.old) place) place None units.old lines.old result units.new lines.new }
    ensures answer_value { parsed_by_number result.answer ≡ parsed_by_number (text_box_read source.entry.order source.entry.«data».now (text_box_start (length source.entry.«data».now) (length units.old) (length lines.old) place) place None).answer }
{
    match read_start(source.data.len(), units.len(), lines.len(), place) {
        Ok(cursor) => read(Reader { source, cursor }, place, None, units, lines),
        Err(why) => Parsed::refused(why),
    }
}

// 1, 2, 9, 10, 11, 13, 14, 15 and 16
#[tactic(auto, using(text_box_checks::proofs::Stays::label_length_stays, text_box_checks::proofs::Stays::text_box_stays), unfolding(crate::specs::Body::text_box_write_checked, core_checks::specs::Checks::body_checked, pane_checks::specs::Checks::names_checked, text_box_checks::specs::Checks::label_name_checked, pane_checks::specs::Checks::reserve_checked, core_checks::specs::Checks::end_checked, core_read::specs::Taken::stop_if))]
fn write_checked(
    b: Pane,
    x: TextBoxPane,
    units: &[u16],
    lines: &[u32],
    label: &[u8],
    length: usize,
    place: usize,
) -> Result<(), Refusal>
    ensures { Clears result (text_box_write_checked b x units.now lines.now label.now length place) place }
{
    text_box_read::typed_text_box(x);
    checks::length_checked(length)?;
    text_box_checks::label_length_checked(x.label, label)?;
    checks::body_checked(length, place)?;
    names_checked(b)?;
    text_box_checks::label_name_checked(x.label, label)?;
    reserve_checked(b)?;
    text_box_checks::text_box_checked(x, units, lines)?;
    let own = write::text_box_length(place, x, units, lines, label);
    checks::end_checked(place, 76 + own, length)
}

// The base, and what the kind adds.
pub fn put_body<'a, 's>(
    w: &'s mut Writer<'a>,
    b: Pane,
    x: TextBoxPane,
    units: &[u16],
    lines: &[u32],
    label: &[u8],
)
    requires { Sound b × (8 ≤ w.old.place) × (w.old.place < 2 ^ 32) × Small x units.now lines.now label.now × HasRoom w.old (76 + text_box_length w.old.place x units.now lines.now label.now) }
    ensures { Puts w.old w.new (76 + text_box_length w.old.place x units.now lines.now label.now) (λ order. encode_body order w.old.place b x units.now lines.now label.now) }
{
    let body = w.place;
    pane::put_pane(w, b);
    write::put_text_box(w, x, units, lines, label, body);
}

// The text box at a place. A refusal leaves the output as it was; an accepted write answers its end, and changes no byte but its own.
#[tactic(auto, unfolding(crate::specs::Body::text_box_written, crate::specs::Body::text_box_output, core_checks::specs::Checks::written_of, core_checks::specs::Checks::unless_refused))]
pub fn write(
    order: ByteOrder,
    b: Pane,
    x: TextBoxPane,
    units: &[u16],
    lines: &[u32],
    label: &[u8],
    out: &mut [u8],
    place: usize,
) -> Result<usize, Refusal>
    ensures value { result ≡ text_box_written b x units.now lines.now label.now (length out.old) place }
    ensures out_after { out.new ≡ text_box_output order b x units.now lines.now label.now out.old place }
    ensures result_value { written_by_number result ≡ written_by_number (text_box_written b x units.now lines.now label.now (length out.old) place) }
{
    text_box_read::typed_text_box(x);
    write_checked(b, x, units, lines, label, out.len(), place)?;
    let mut w = Writer { order, out, place };
    put_body(&mut w, b, x, units, lines, label);
    Ok(w.place)
}
