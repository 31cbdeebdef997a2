// The 84 fixed bytes of a text box after the base, written in four chunks.
ghost use Rattle.std.specs.Prelude.{◌≡◌};
ghost use Rattle.core_write.specs.Puts.{HasRoom, Puts};
ghost use Rattle.text_box_read.specs.TextBox.{measure_kind, measure_vector};
ghost use Rattle.text_box_write.specs.Fixed.{encode_indices, encode_style, encode_font, encode_shadow, encode_fixed};

use crate::write::Layout;
use core_write::writer::Writer;
use flags::text::{FontMeasureKind, TextFlagsWord};
use text_box_read::{FontMeasure, TextBoxPane};
use ui2d::Vector2f;

fn measure_kind(m: FontMeasure) -> FontMeasureKind
    ensures { result ≡ measure_kind m }
{
    match m {
        FontMeasure::Size(_) => FontMeasureKind::Size,
        FontMeasure::Scale(_) => FontMeasureKind::Scale,
    }
}

fn measure_vector(m: FontMeasure) -> Vector2f
    ensures { result ≡ measure_vector m }
{
    match m {
        FontMeasure::Size(v) => v,
        FontMeasure::Scale(v) => v,
    }
}

fn put_indices<'a, 's>(w: &'s mut Writer<'a>, x: TextBoxPane)
    requires { HasRoom w.old 8 }
    ensures { Puts w.old w.new 8 (λ order. encode_indices order x) }
{
    w.put_number(x.text_buffer_size);
    w.put_number(x.text_length);
    w.put_number(x.material_index);
    w.put_number(x.font_index);
}

fn put_style<'a, 's>(w: &'s mut Writer<'a>, x: TextBoxPane)
    requires { HasRoom w.old 8 }
    ensures { Puts w.old w.new 8 (λ order. encode_style order x) }
{
    let word = TextFlagsWord {
        flags: x.text_flags,
        measure: measure_kind(x.font_measure),
    };
    w.put_number(u8::from(x.text_origin));
    w.put_number(u8::from(x.text_alignment));
    w.put_number(u16::from(word));
    w.put_number(x.italic_tilt.bits);
}

fn put_font<'a, 's>(w: &'s mut Writer<'a>, x: TextBoxPane, plan: Layout)
    requires { HasRoom w.old 32 }
    ensures { Puts w.old w.new 32 (λ order. encode_font order x plan.text plan.label) }
{
    w.put_number(plan.text);
    ui2d::put_color(w, x.font_top_color);
    ui2d::put_color(w, x.font_bottom_color);
    ui2d::put_vector2(w, measure_vector(x.font_measure));
    w.put_number(x.character_space.bits);
    w.put_number(x.line_space.bits);
    w.put_number(plan.label);
}

fn put_shadow<'a, 's>(w: &'s mut Writer<'a>, x: TextBoxPane, plan: Layout)
    requires { HasRoom w.old 36 }
    ensures { Puts w.old w.new 36 (λ order. encode_shadow order x plan.lines) }
{
    ui2d::put_vector2(w, x.shadow_translation);
    ui2d::put_vector2(w, x.shadow_size);
    ui2d::put_color(w, x.shadow_top_color);
    ui2d::put_color(w, x.shadow_bottom_color);
    w.put_number(x.shadow_italic_tilt.bits);
    w.put_number(plan.lines);
    w.put_number(0u32);
}

// The fixed bytes, with the three offsets. By a writer of its own, whose place and output a compiler keeps in registers.
pub fn put_fixed<'a, 's>(w: &'s mut Writer<'a>, x: TextBoxPane, plan: Layout)
    requires { HasRoom w.old 84 }
    ensures { Puts w.old w.new 84 (λ order. encode_fixed order x plan.text plan.label plan.lines) }
{
    let mut own = Writer {
        order: w.order,
        out: &mut *w.out,
        place: w.place,
    };
    put_indices(&mut own, x);
    put_style(&mut own, x);
    put_font(&mut own, x, plan);
    put_shadow(&mut own, x, plan);
    w.place = own.place;
}
