// The section write.
ghost use Rattle.std.specs.Prelude.{[], ◌++◌, ◌≡◌, ◌+◌, ◌^◌, ◌≤◌, ◌<◌, length};
ghost use Rattle.core_read.specs.Bytes.{bytes_of, padding};
ghost use Rattle.core_read.specs.Taken.{start};
ghost use Rattle.core_checks.specs.Answered.{Clears, Lets};
ghost use Rattle.core_checks.specs.Checks.{length_checked, section_checked, section_start, end_checked, written_by_number};
ghost use Rattle.core_write.specs.Puts.{HasRoom, Puts};
ghost use Rattle.pane_read.specs.Pane.{Sound};
ghost use Rattle.picture_fields.specs.Picture.{GoodPicture};
ghost use Rattle.picture.specs.Body as picture_body;
ghost use Rattle.text_box_write.specs.Written.{Small, text_box_length};
ghost use Rattle.window_write.specs.Write.{GoodWindow};
ghost use Rattle.window.specs.Body as window_body;
ghost use Rattle.pane_checks.specs.Checks.{names_checked, reserve_checked};
ghost use Rattle.text_box_parts.specs.Parts.{label_part};
ghost use Rattle.text_box_checks.specs.Checks.{label_length_checked, label_name_checked};
ghost use Rattle.strip_records.specs.Kinds.{letter_bytes};
ghost use Rattle.strip_records.specs.Held.{handed};
ghost use Rattle.strip_records.specs.Whole.{whole, pan1, pic1, txt1, wnd1, ali1};
ghost use Rattle.strip_write.specs.Write.{section_size, section, write_answer, write_output};

use alignment::AlignmentPane;
use core_checks::checks;
use core_read::cursor::ByteOrder;
use core_read::error::Refusal;
use core_write::writer::{Writer, padding_at};
use pane::Pane;
use pane_checks::checks::{names_checked, reserve_checked};
use picture::PicturePane;
use strip_records::kind::Kind;
use strip_records::lists::Content;
use strip_records::record::Record;
use text_box::{Span, TextBoxPane};
use text_box_checks::{label_length_checked, label_name_checked};
use window::WindowPane;

// Header, body and padding of a body of n bytes.
fn section_size(n: usize) -> usize
    requires { n < 2 ^ 31 }
    ensures { result ≡ section_size n }
{
    8 + n + padding_at(n)
}

// 1, 2, 9 of the names, and 10.
#[tactic(auto, using(core_checks::proofs::Checked::section_started), unfolding(pane_checks::specs::Checks::names_checked, pane_checks::specs::Checks::reserve_checked, core_read::specs::Taken::stop_if))]
fn base_checked(base: Pane, length: usize, place: usize) -> Result<(), Refusal>
    ensures { Clears result (reserve_checked (names_checked (section_start length place) base) base) place }
{
    checks::section_start(length, place)?;
    names_checked(base)?;
    reserve_checked(base)
}

// The same, with 1 and 9 of a label.
#[tactic(auto, using(text_box_checks::proofs::Stays::label_length_stays), unfolding(core_checks::specs::Checks::section_checked, pane_checks::specs::Checks::names_checked, text_box_checks::specs::Checks::label_name_checked, pane_checks::specs::Checks::reserve_checked, core_read::specs::Taken::stop_if))]
fn labelled_checked(
    base: Pane,
    label: Option<Span>,
    bytes: &[u8],
    length: usize,
    place: usize,
) -> Result<(), Refusal>
    ensures { Clears result (reserve_checked (label_name_checked (names_checked (section_checked (label_length_checked (length_checked (Ok (start place)) length) (label_part label bytes.now)) length place) base) (label_part label bytes.now)) base) place }
{
    checks::length_checked(length)?;
    label_length_checked(label, bytes)?;
    checks::section_checked(length, place)?;
    names_checked(base)?;
    label_name_checked(label, bytes)?;
    reserve_checked(base)
}

// 16, of a section with a body of n bytes.
#[tactic(auto, using(crate::proofs::Cleared::size_bound))]
fn end_checked(n: usize, length: usize, place: usize) -> Result<(), Refusal>
    requires { (n < 2 ^ 31) × (place ≤ 16777216) }
    ensures { Lets result (λ p. end_checked p (place + section_size n) length) }
{
    checks::end_checked(place, section_size(n), length)
}

// Letters and size of a section with a body of n bytes. The letters are bytes in a row, whatever the order.
fn put_header<'a, 's>(w: &'s mut Writer<'a>, kind: Kind, n: usize)
    requires { (n < 2 ^ 31) × HasRoom w.old 8 }
    ensures { Puts w.old w.new 8 (λ order. letter_bytes kind ++ bytes_of order 4 (section_size n)) }
{
    let letters = kind.letters();
    let size = section_size(n);
    let order = w.order;
    w.order = ByteOrder::Little;
    w.put_number(letters);
    w.order = order;
    w.put_number(size as u32);
}

// ---- a section, by kind: header, body of n bytes, and zeros to a multiple of 4

fn put_pan1<'a, 's>(w: &'s mut Writer<'a>, base: Pane)
    requires { Sound base × HasRoom w.old 84 }
    ensures { Puts w.old w.new (section_size 76) (λ order. section order w.old.place (whole (pan1 base) [] [] [] [] [])) }
{
    put_header(w, Kind::Pan1, 76);
    pane::put_pane(w, base);
}

fn put_ali1<'a, 's>(w: &'s mut Writer<'a>, base: Pane, own: AlignmentPane)
    requires { Sound base × HasRoom w.old 96 }
    ensures { Puts w.old w.new (section_size 88) (λ order. section order w.old.place (whole (ali1 base own) [] [] [] [] [])) }
{
    put_header(w, Kind::Ali1, 88);
    alignment::body::put_body(w, base, own);
}

fn put_pic1<'a, 's>(w: &'s mut Writer<'a>, base: Pane, own: PicturePane, quads: &[u32], n: usize)
    requires length { (n ≡ picture_body.body_length own quads.now) × (n < 2 ^ 31) }
    requires good { Sound base × GoodPicture quads.now }
    requires room { HasRoom w.old (8 + n + padding n) }
    ensures { Puts w.old w.new (section_size n) (λ order. section order w.old.place (whole (pic1 base own) quads.now [] [] [] [])) }
{
    put_header(w, Kind::Pic1, n);
    picture::body::put_body(w, base, own, quads);
    w.put_zeros(padding_at(n));
}

fn put_txt1<'a, 's>(
    w: &'s mut Writer<'a>,
    base: Pane,
    own: TextBoxPane,
    units: &[u16],
    lines: &[u32],
    label: &[u8],
    n: usize,
)
    requires length { (n ≡ 76 + text_box_length (w.old.place + 8) own units.now lines.now label.now) × (n < 2 ^ 31) }
    requires good { Sound base × Small own units.now lines.now label.now × (w.old.place < 2 ^ 31) }
    requires room { HasRoom w.old (8 + n + padding n) }
    ensures { Puts w.old w.new (section_size n) (λ order. section order w.old.place (whole (txt1 base own) [] units.now lines.now [] label.now)) }
{
    put_header(w, Kind::Txt1, n);
    text_box::body::put_body(w, base, own, units, lines, label);
    w.put_zeros(padding_at(n));
}

fn put_wnd1<'a, 's>(
    w: &'s mut Writer<'a>,
    base: Pane,
    own: WindowPane,
    quads: &[u32],
    frames: &[u16],
    n: usize,
)
    requires length { (n ≡ window_body.body_length (w.old.place + 8) quads.now frames.now) × (n < 2 ^ 31) }
    requires good { Sound base × GoodWindow quads.now frames.now × (w.old.place < 2 ^ 31) }
    requires room { HasRoom w.old (8 + n + padding n) }
    ensures { Puts w.old w.new (section_size n) (λ order. section order w.old.place (whole (wnd1 base own) quads.now [] [] frames.now [])) }
{
    put_header(w, Kind::Wnd1, n);
    window::body::put_body(w, base, own, quads, frames);
    w.put_zeros(padding_at(n));
}

// ---- the section at a place, by kind. A refusal leaves the output as it was; an accepted write answers its end, and changes no byte but its own.

// A base pane: checks 1, 2, 9, 10 and 16.
#[tactic(auto, unfolding(crate::specs::Write::write_answer, crate::specs::Write::write_output, crate::specs::Write::write_checked, crate::specs::Write::own_length_checked, crate::specs::Write::own_name_checked, crate::specs::Write::own_checked, core_checks::specs::Checks::written_of, core_checks::specs::Checks::unless_refused, core_checks::specs::Checks::section_start, core_checks::specs::Checks::end_checked, core_read::specs::Taken::stop_if))]
pub fn write_pan1(
    order: ByteOrder,
    base: Pane,
    out: &mut [u8],
    place: usize,
) -> Result<usize, Refusal>
    ensures value { result ≡ write_answer (whole (pan1 base) [] [] [] [] []) (length out.old) place }
    ensures out_after { out.new ≡ write_output order (whole (pan1 base) [] [] [] [] []) out.old place }
{
    let length = out.len();
    base_checked(base, length, place)?;
    end_checked(76, length, place)?;
    let mut w = Writer { order, out, place };
    put_pan1(&mut w, base);
    Ok(w.place)
}

// A picture pane: checks 1, 2, 9, 10, 11 and 16.
#[tactic(auto, unfolding(crate::specs::Write::write_answer, crate::specs::Write::write_output, crate::specs::Write::write_checked, crate::specs::Write::own_length_checked, crate::specs::Write::own_name_checked, crate::specs::Write::own_checked, core_checks::specs::Checks::written_of, core_checks::specs::Checks::unless_refused, core_checks::specs::Checks::section_start, core_checks::specs::Checks::end_checked, picture_fields::specs::Picture::picture_checked, core_checks::specs::Checks::count_checked, core_read::specs::Taken::stop_if))]
pub fn write_pic1(
    order: ByteOrder,
    base: Pane,
    own: PicturePane,
    quads: &[u32],
    out: &mut [u8],
    place: usize,
) -> Result<usize, Refusal>
    ensures value { result ≡ write_answer (whole (pic1 base own) quads.now [] [] [] []) (length out.old) place }
    ensures out_after { out.new ≡ write_output order (whole (pic1 base own) quads.now [] [] [] []) out.old place }
{
    let length = out.len();
    base_checked(base, length, place)?;
    picture_fields::picture_checked(quads)?;
    let n = picture::body::body_length(own, quads);
    end_checked(n, length, place)?;
    let mut w = Writer { order, out, place };
    put_pic1(&mut w, base, own, quads, n);
    Ok(w.place)
}

// A text box: checks 1, 2, 9, 10, 11, 13, 14, 15 and 16.
#[tactic(auto, using(text_box_checks::proofs::Stays::text_box_stays), unfolding(crate::specs::Write::write_answer, crate::specs::Write::write_output, crate::specs::Write::write_checked, crate::specs::Write::own_length_checked, crate::specs::Write::own_name_checked, crate::specs::Write::own_checked, core_checks::specs::Checks::written_of, core_checks::specs::Checks::unless_refused, core_checks::specs::Checks::end_checked, core_read::specs::Taken::stop_if))]
pub fn write_txt1(
    order: ByteOrder,
    base: Pane,
    own: TextBoxPane,
    units: &[u16],
    lines: &[u32],
    label: &[u8],
    out: &mut [u8],
    place: usize,
) -> Result<usize, Refusal>
    ensures value { result ≡ write_answer (whole (txt1 base own) [] units.now lines.now [] label.now) (length out.old) place }
    ensures out_after { out.new ≡ write_output order (whole (txt1 base own) [] units.now lines.now [] label.now) out.old place }
{
    text_box_read::typed_text_box(own);
    let length = out.len();
    labelled_checked(base, own.label, label, length, place)?;
    text_box_checks::text_box_checked(own, units, lines)?;
    let body = place + 8;
    let n = 76 + text_box_write::write::text_box_length(body, own, units, lines, label);
    end_checked(n, length, place)?;
    let mut w = Writer { order, out, place };
    put_txt1(&mut w, base, own, units, lines, label, n);
    Ok(w.place)
}

// A window pane: checks 1, 2, 9, 10, 11, 12 and 16.
#[tactic(auto, using(window_write::proofs::Puts::window_stays), unfolding(crate::specs::Write::write_answer, crate::specs::Write::write_output, crate::specs::Write::write_checked, crate::specs::Write::own_length_checked, crate::specs::Write::own_name_checked, crate::specs::Write::own_checked, core_checks::specs::Checks::written_of, core_checks::specs::Checks::unless_refused, core_checks::specs::Checks::section_start, core_checks::specs::Checks::end_checked, window::specs::Body::body_length, core_read::specs::Taken::stop_if))]
pub fn write_wnd1(
    order: ByteOrder,
    base: Pane,
    own: WindowPane,
    quads: &[u32],
    frames: &[u16],
    out: &mut [u8],
    place: usize,
) -> Result<usize, Refusal>
    ensures value { result ≡ write_answer (whole (wnd1 base own) quads.now [] [] frames.now []) (length out.old) place }
    ensures out_after { out.new ≡ write_output order (whole (wnd1 base own) quads.now [] [] frames.now []) out.old place }
{
    let length = out.len();
    base_checked(base, length, place)?;
    window_write::write::window_checked(quads, frames)?;
    let body = place + 8;
    let n = 76 + window_write::write::window_length(body, quads.len(), frames.len());
    end_checked(n, length, place)?;
    let mut w = Writer { order, out, place };
    put_wnd1(&mut w, base, own, quads, frames, n);
    Ok(w.place)
}

// An alignment pane: checks 1, 2, 9, 10 and 16.
#[tactic(auto, unfolding(crate::specs::Write::write_answer, crate::specs::Write::write_output, crate::specs::Write::write_checked, crate::specs::Write::own_length_checked, crate::specs::Write::own_name_checked, crate::specs::Write::own_checked, core_checks::specs::Checks::written_of, core_checks::specs::Checks::unless_refused, core_checks::specs::Checks::section_start, core_checks::specs::Checks::end_checked, core_read::specs::Taken::stop_if))]
pub fn write_ali1(
    order: ByteOrder,
    base: Pane,
    own: AlignmentPane,
    out: &mut [u8],
    place: usize,
) -> Result<usize, Refusal>
    ensures value { result ≡ write_answer (whole (ali1 base own) [] [] [] [] []) (length out.old) place }
    ensures out_after { out.new ≡ write_output order (whole (ali1 base own) [] [] [] [] []) out.old place }
{
    let length = out.len();
    base_checked(base, length, place)?;
    end_checked(88, length, place)?;
    let mut w = Writer { order, out, place };
    put_ali1(&mut w, base, own);
    Ok(w.place)
}

// The section of a record at a place: the write of its kind.
// The lists and the label of a kind that lacks them are not looked at.
pub fn write_section(
    order: ByteOrder,
    r: Record,
    content: Content,
    out: &mut [u8],
    place: usize,
) -> Result<usize, Refusal>
    ensures value { result ≡ write_answer (handed r content.entry) (length out.old) place }
    ensures out_after { out.new ≡ write_output order (handed r content.entry) out.old place }
    ensures result_value { written_by_number result ≡ written_by_number (write_answer (handed r content.entry) (length out.old) place) }
{
    let Content {
        quads,
        units,
        lines,
        frames,
        label,
    } = content;
    let kind = r.kind;
    match kind {
        Kind::Pan1 => write_pan1(order, r.base, out, place),
        Kind::Pic1 => write_pic1(order, r.base, r.picture, quads, out, place),
        Kind::Txt1 => write_txt1(order, r.base, r.text_box, units, lines, label, out, place),
        Kind::Wnd1 => write_wnd1(order, r.base, r.window, quads, frames, out, place),
        Kind::Ali1 => write_ali1(order, r.base, r.alignment, out, place),
    }
}
