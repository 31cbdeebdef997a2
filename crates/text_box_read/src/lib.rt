// What a text box has beyond the base, and how it is read: 84 bytes, then its text, its label and its line table.
#![tactic(auto)]

ghost use Rattle.std.specs.Prelude.{◌≡◌, ◌^◌, ◌≤◌, ◌<◌, length};
ghost use Rattle.core_read.specs.Steps.{Took};
ghost use Rattle.core_read.specs.Taken.{over};
ghost use Rattle.text_box_read.specs.TextBox.{font_measure_of, blank_text_box, assembled, text_box_taken, text_box_units, text_box_lines, Standing};
ghost use Rattle.text_box_read.specs.Typed.{TypedMeasure, TypedTextBox};

use core_read::error::Refusal;
use core_read::reader::{Reader, Source};
use flags::position::TextPosition;
use flags::text::{FontMeasureKind, TextAlignment, TextFlagsWord, TextPaneFlags};
use floats::Binary32;
use text_box_fixed::fixed::TextFixed;
use text_box_parts::parts::{LinesFound, TextFound};
use text_box_parts::{Span, Text, parts};
use ui2d::{Color4u8, Vector2f};

// Flag bit 12 decides which of the two it is.
#[derive(Clone, Copy)]
pub enum FontMeasure {
    Size(Vector2f),
    Scale(Vector2f),
}

#[derive(Clone, Copy)]
pub struct TextBoxPane {
    pub text_buffer_size: u16,
    pub text_length: u16,
    pub material_index: u16,
    pub font_index: u16,
    pub text_origin: TextPosition,
    pub text_alignment: TextAlignment,
    pub text_flags: TextPaneFlags,
    pub italic_tilt: Binary32,
    pub font_top_color: Color4u8,
    pub font_bottom_color: Color4u8,
    pub font_measure: FontMeasure,
    pub character_space: Binary32,
    pub line_space: Binary32,
    pub shadow_translation: Vector2f,
    pub shadow_size: Vector2f,
    pub shadow_top_color: Color4u8,
    pub shadow_bottom_color: Color4u8,
    pub shadow_italic_tilt: Binary32,
    pub text: Text,
    pub label: Option<Span>,
    pub line_table: Option<u8>,
}

// What a read gives: the text box, and where its units and its line table stand.
#[derive(Clone, Copy)]
pub struct TextBoxFound {
    pub text_box: TextBoxPane,
    pub text_place: usize,
    pub lines_place: usize,
}

// ---- reading

fn font_measure_of(kind: FontMeasureKind, v: Vector2f) -> FontMeasure
    ensures { result ≡ font_measure_of kind v }
{
    match kind {
        FontMeasureKind::Size => FontMeasure::Size(v),
        FontMeasureKind::Scale => FontMeasure::Scale(v),
    }
}

// The record of what was read.
#[tactic(auto, unfolding(crate::specs::TextBox::assembled))]
fn assemble(
    fixed: TextFixed,
    text: Text,
    label: Option<Span>,
    line_table: Option<u8>,
) -> TextBoxPane
    ensures { result ≡ assembled fixed.head fixed.font fixed.shadow text label line_table }
{
    let TextFixed { head, font, shadow } = fixed;
    TextBoxPane {
        text_buffer_size: head.text_buffer_size,
        text_length: head.text_length,
        material_index: head.material_index,
        font_index: head.font_index,
        text_origin: head.text_origin,
        text_alignment: head.text_alignment,
        text_flags: head.word.flags,
        italic_tilt: head.italic_tilt,
        font_top_color: font.top_color,
        font_bottom_color: font.bottom_color,
        font_measure: font_measure_of(head.word.measure, font.measure),
        character_space: font.character_space,
        line_space: font.line_space,
        shadow_translation: shadow.translation,
        shadow_size: shadow.size,
        shadow_top_color: shadow.top_color,
        shadow_bottom_color: shadow.bottom_color,
        shadow_italic_tilt: shadow.italic_tilt,
        text,
        label,
        line_table,
    }
}

// The own fields from B + 76 on, then text, label and line table where their offsets say, then check 6. No list is changed.
#[tactic(auto, using(crate::proofs::Stay::text_stays, crate::proofs::Stay::label_stays, crate::proofs::Stay::lines_stay), unfolding(crate::specs::TextBox::text_box_taken, text_box_fixed::specs::Fixed::fixed_taken, text_box_parts::specs::Parts::per_character_checked, core_read::specs::Taken::stop_if))]
pub fn measure_text_box<'a, 's>(r: &'s mut Reader<'a>, body: usize) -> Result<TextBoxFound, Refusal>
    requires { (8 ≤ body) × (body < 2 ^ 32) }
    ensures { Took r.old r.new result (λ order s p. text_box_taken order s p body) }
{
    let fixed: TextFixed = r.take()?;
    let flags = fixed.head.word.flags;
    let text = parts::take_text(r, body, fixed.font.text_offset, fixed.head.text_length)?;
    let label = parts::take_label(r, body, fixed.font.label_offset)?;
    let lines = parts::take_lines(r, body, flags.is_line_transform, fixed.shadow.line_offset)?;
    parts::per_character_checked(
        flags.is_per_character_transform,
        fixed.shadow.per_character_offset,
    )?;
    Ok(TextBoxFound {
        text_box: assemble(fixed, text.text, label, lines.table),
        text_place: text.place,
        lines_place: lines.place,
    })
}

// The units and the lines of a text box whose read came through, at the front of the lent lists.
pub fn fill_text_box(source: Source, t: TextBoxFound, units: &mut [u16], lines: &mut [u32])
    requires { Standing source.«data».now t × (32767 ≤ length units.old) × (510 ≤ length lines.old) }
    ensures { (units.new ≡ over (text_box_units source.entry.order source.entry.«data».now t) units.old) × (lines.new ≡ over (text_box_lines source.entry.order source.entry.«data».now t) lines.old) }
{
    let x = t.text_box;
    let n = (x.text_length / 2) as usize;
    let text = TextFound {
        text: x.text,
        place: t.text_place,
    };
    let table = LinesFound {
        table: x.line_table,
        place: t.lines_place,
    };
    parts::fill_units(source, text, n, units);
    parts::fill_lines(source, table, lines);
}

// The text box beside a refusal.
#[tactic(auto, unfolding(crate::specs::TextBox::blank_text_box))]
pub fn blank_text_box() -> TextBoxPane
    ensures { result ≡ blank_text_box }
{
    let zero = Binary32 { bits: 0 };
    let vector = Vector2f { x: zero, y: zero };
    let color = Color4u8 {
        r: 0,
        g: 0,
        b: 0,
        a: 0,
    };
    TextBoxPane {
        text_buffer_size: 0,
        text_length: 0,
        material_index: 0,
        font_index: 0,
        text_origin: TextPosition::from(0),
        text_alignment: TextAlignment::Synchronous,
        text_flags: TextFlagsWord::from(0).flags,
        italic_tilt: zero,
        font_top_color: color,
        font_bottom_color: color,
        font_measure: FontMeasure::Size(vector),
        character_space: zero,
        line_space: zero,
        shadow_translation: vector,
        shadow_size: vector,
        shadow_top_color: color,
        shadow_bottom_color: color,
        shadow_italic_tilt: zero,
        text: Text::Absent,
        label: None,
        line_table: None,
    }
}

impl Default for TextBoxPane {
    ghost is_default = { λ x. x ≡ blank_text_box };

    fn default() -> TextBoxPane {
        blank_text_box()
    }
}

// ---- what the types say

fn typed_measure(m: FontMeasure)
    ensures { TypedMeasure m }
{
    match m {
        FontMeasure::Size(v) => ui2d::typed_vector2(v),
        FontMeasure::Scale(v) => ui2d::typed_vector2(v),
    }
}

fn typed_half(v: u16)
    ensures { v < 256 ^ 2 }
{}

fn typed_float(v: Binary32)
    ensures { v.bits < 256 ^ 4 }
{}

// Every text box is one that TypedTextBox describes.
pub fn typed_text_box(x: TextBoxPane)
    ensures { TypedTextBox x }
{
    typed_half(x.text_buffer_size);
    typed_half(x.text_length);
    typed_half(x.material_index);
    typed_half(x.font_index);
    typed_float(x.italic_tilt);
    ui2d::typed_color(x.font_top_color);
    ui2d::typed_color(x.font_bottom_color);
    let measure = x.font_measure;
    typed_measure(measure);
    typed_float(x.character_space);
    typed_float(x.line_space);
    ui2d::typed_vector2(x.shadow_translation);
    ui2d::typed_vector2(x.shadow_size);
    ui2d::typed_color(x.shadow_top_color);
    ui2d::typed_color(x.shadow_bottom_color);
    typed_float(x.shadow_italic_tilt);
}
