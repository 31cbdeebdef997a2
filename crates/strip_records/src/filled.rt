// How many numbers of each lent list a record counts. A read fills the first so many of a list; handed back to a write, the list is to have so many.
ghost use Rattle.std.specs.Prelude.{◌≡◌, ◌*◌, ◌≤◌};
ghost use Rattle.strip_records.specs.Filled.{text_numbers, table_numbers, quad_numbers, unit_numbers, line_numbers, frame_numbers};

use crate::kind::Kind;
use crate::record::Record;
use text_box_parts::Text;

// ---- of a count; of a text and a line table

pub fn quads_of(count: u8) -> usize
    ensures { (result ≡ 8 * count) × (result ≤ 2040) }
{
    8 * (count as usize)
}

pub fn frames_of(count: u8) -> usize
    ensures { (result ≡ 2 * count) × (result ≤ 510) }
{
    2 * (count as usize)
}

pub fn units_of(text: Text, text_length: u16) -> usize
    ensures { (result ≡ text_numbers text text_length) × (result ≤ 32767) }
{
    match text {
        Text::Absent => 0,
        Text::Present => (text_length / 2) as usize,
    }
}

pub fn lines_of(table: Option<u8>) -> usize
    ensures { (result ≡ table_numbers table) × (result ≤ 510) }
{
    table.map_or(0, |count| 2 * (count as usize))
}

// ---- of a record

pub fn quads_filled(r: Record) -> usize
    ensures { (result ≡ quad_numbers r) × (result ≤ 2040) }
{
    match r.kind {
        Kind::Pic1 => quads_of(r.picture.quad_count),
        Kind::Wnd1 => quads_of(r.window.content.quad_count),
        _ => 0,
    }
}

pub fn units_filled(r: Record) -> usize
    ensures { (result ≡ unit_numbers r) × (result ≤ 32767) }
{
    match r.kind {
        Kind::Txt1 => units_of(r.text_box.text, r.text_box.text_length),
        _ => 0,
    }
}

pub fn lines_filled(r: Record) -> usize
    ensures { (result ≡ line_numbers r) × (result ≤ 510) }
{
    match r.kind {
        Kind::Txt1 => lines_of(r.text_box.line_table),
        _ => 0,
    }
}

pub fn frames_filled(r: Record) -> usize
    ensures { (result ≡ frame_numbers r) × (result ≤ 510) }
{
    match r.kind {
        Kind::Wnd1 => frames_of(r.window.frame_count),
        _ => 0,
    }
}
