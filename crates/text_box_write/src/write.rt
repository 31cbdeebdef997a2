// A text box written: offsets first, then the fixed bytes and the parts.
ghost use Rattle.std.specs.Prelude.{◌≡◌, ◌+◌, ◌*◌, ◌/◌, ◌^◌, ◌≤◌, ◌<◌, length, MatchOption};
ghost use Rattle.core_read.specs.Bytes.{bytes_of_all, padding};
ghost use Rattle.core_write.specs.Puts.{HasRoom, Puts};
ghost use Rattle.text_box_parts.specs.Parts.{text_part, label_part, line_part, column};
ghost use Rattle.text_box_write.specs.Written.{Few, text_offset, text_width, label_width, line_width, encode_text, encode_label, encode_lines, layout_of, Small, text_box_length, encode_text_box};

use crate::fixed;
use core_write::writer;
use core_write::writer::Writer;
use text_box_parts::{Span, Text};
use text_box_read::TextBoxPane;

// The three offsets, and how many bytes the text box has beyond the base.
#[derive(Clone, Copy)]
pub struct Layout {
    pub text: u32,
    pub label: u32,
    pub lines: u32,
    pub length: usize,
}

// ---- widths and offsets

fn text_width(text: Text, units: &[u16]) -> usize
    requires { Few 32767 (text_part text units.now) }
    ensures { (result ≡ text_width (text_part text units.now)) × (result ≤ 65534) }
{
    match text {
        Text::Absent => 0,
        Text::Present => 2 * units.len(),
    }
}

#[tactic(auto, unfolding(core_read::specs::Bytes::padding))]
fn label_width(at: usize, label: Option<Span>, bytes: &[u8]) -> usize
    requires { Few 16777216 (label_part label bytes.now) }
    ensures { (result ≡ label_width at (label_part label bytes.now)) × (result ≤ 16777220) }
{
    match label {
        None => 0,
        Some(_) => writer::padding_at(at) + (bytes.len() + 1),
    }
}

#[tactic(auto, unfolding(core_read::specs::Bytes::padding))]
fn lines_width(at: usize, table: Option<u8>, lines: &[u32]) -> usize
    requires { Few 510 (line_part table lines.now) }
    ensures { (result ≡ line_width at (line_part table lines.now)) × (result ≤ 2044) }
{
    match table {
        None => 0,
        Some(_) => {
            let n = lines.len() / 2;
            writer::padding_at(at) + (1 + (4 * n + 4 * n))
        }
    }
}

fn text_offset(text: Text, units: &[u16]) -> u32
    ensures { result ≡ text_offset (text_part text units.now) }
{
    match text {
        Text::Absent => 0,
        Text::Present => 168,
    }
}

// Of the label or the line table, which is aligned.
#[tactic(auto, unfolding(core_read::specs::Bytes::padding))]
fn part_offset<T: Drop>(at: usize, end: usize, part: Option<T>) -> u32
    requires { end < 2 ^ 31 }
    ensures { MatchOption part (result ≡ 0) (λ _. result ≡ end + padding at) }
{
    part.map_or(0, |_| (end + writer::padding_at(at)) as u32)
}

fn lay_out(body: usize, x: TextBoxPane, units: &[u16], lines: &[u32], label: &[u8]) -> Layout
    requires { (8 ≤ body) × (body < 2 ^ 32) × Small x units.now lines.now label.now }
    ensures { (result ≡ layout_of body x units.now lines.now label.now) × (result.length ≤ 16844882) }
{
    let text = text_width(x.text, units);
    let end = 168 + text;
    let at = body - 8 + end;
    let name = label_width(at, x.label, label);
    let last = end + name;
    let then = body - 8 + last;
    let table = lines_width(then, x.line_table, lines);
    Layout {
        text: text_offset(x.text, units),
        label: part_offset(at, end, x.label),
        lines: part_offset(then, last, x.line_table),
        length: 84 + (text + (name + table)),
    }
}

// How many bytes a text box at B has beyond the base.
pub fn text_box_length(
    body: usize,
    x: TextBoxPane,
    units: &[u16],
    lines: &[u32],
    label: &[u8],
) -> usize
    requires { (8 ≤ body) × (body < 2 ^ 32) × Small x units.now lines.now label.now }
    ensures { (result ≡ text_box_length body x units.now lines.now label.now) × (result ≤ 16844882) }
{
    lay_out(body, x, units, lines, label).length
}

// ---- bytes

#[tactic(auto, using(core_write::proofs::Chain::puts_none))]
fn put_text<'a, 's>(w: &'s mut Writer<'a>, text: Text, units: &[u16])
    requires { HasRoom w.old (text_width (text_part text units.now)) }
    ensures { Puts w.old w.new (text_width (text_part text units.now)) (λ order. encode_text order (text_part text units.now)) }
{
    match text {
        Text::Absent => {}
        Text::Present => {
            // A writer of its own: order, address and place stay in registers through the loop.
            let mut own = Writer {
                order: w.order,
                out: &mut *w.out,
                place: w.place,
            };
            own.put_u16s(units);
            w.place = own.place;
        }
    }
}

// Aligned, with its NUL.
#[tactic(auto, using(core_write::proofs::Chain::puts_none))]
fn put_label<'a, 's>(w: &'s mut Writer<'a>, label: Option<Span>, bytes: &[u8])
    requires { HasRoom w.old (label_width w.old.place (label_part label bytes.now)) }
    ensures { Puts w.old w.new (label_width w.old.place (label_part label bytes.now)) (λ order. encode_label w.old.place (label_part label bytes.now)) }
{
    match label {
        None => {}
        Some(_) => {
            w.put_padding();
            w.put_bytes(bytes);
            w.put_number(0u8);
        }
    }
}

// The n numbers of a column, every other one from k on.
fn put_each<'a, 's>(w: &'s mut Writer<'a>, lines: &[u32], k: usize, n: usize)
    requires { HasRoom w.old (4 * n) × (2 * n ≤ length lines.now) × (k ≤ 1) }
    ensures { Puts w.old w.new (4 * n) (λ order. bytes_of_all order 4 (column lines.now k n)) }
{
    let (pairs, _) = lines[..2 * n].as_chunks::<2>();
    for pair in pairs {
        w.put_number(pair[k]);
    }
}

// The same, by a writer of its own.
fn put_column<'a, 's>(w: &'s mut Writer<'a>, lines: &[u32], k: usize, n: usize)
    requires { HasRoom w.old (4 * n) × (2 * n ≤ length lines.now) × (k ≤ 1) }
    ensures { Puts w.old w.new (4 * n) (λ order. bytes_of_all order 4 (column lines.now k n)) }
{
    let mut own = Writer {
        order: w.order,
        out: &mut *w.out,
        place: w.place,
    };
    put_each(&mut own, lines, k, n);
    w.place = own.place;
}

// Aligned: the count, all offsets, then all widths.
#[tactic(auto, using(core_write::proofs::Chain::puts_none))]
fn put_lines<'a, 's>(w: &'s mut Writer<'a>, table: Option<u8>, lines: &[u32])
    requires { Few 510 (line_part table lines.now) × HasRoom w.old (line_width w.old.place (line_part table lines.now)) }
    ensures { Puts w.old w.new (line_width w.old.place (line_part table lines.now)) (λ order. encode_lines order w.old.place (line_part table lines.now)) }
{
    match table {
        None => {}
        Some(_) => {
            let n = lines.len() / 2;
            w.put_padding();
            w.put_number(n as u8);
            put_column(w, lines, 0, n);
            put_column(w, lines, 1, n);
        }
    }
}

// The text box beyond the base, at B + 76.
pub fn put_text_box<'a, 's>(
    w: &'s mut Writer<'a>,
    x: TextBoxPane,
    units: &[u16],
    lines: &[u32],
    label: &[u8],
    body: usize,
)
    requires { (8 ≤ body) × (body < 2 ^ 32) × (w.old.place ≡ body + 76) × Small x units.now lines.now label.now × HasRoom w.old (text_box_length body x units.now lines.now label.now) }
    ensures { Puts w.old w.new (text_box_length body x units.now lines.now label.now) (λ order. encode_text_box order body x units.now lines.now label.now) }
{
    let plan = lay_out(body, x, units, lines, label);
    fixed::put_fixed(w, x, plan);
    put_text(w, x.text, units);
    put_label(w, x.label, label);
    put_lines(w, x.line_table, lines);
}
