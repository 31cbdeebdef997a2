// The words that a text box has beyond the base.
ghost use Rattle.std.specs.Prelude.{◌≤◌, length, ◌≡◌};
ghost use Rattle.flags.specs.Enums.{alignment_of};
ghost use Rattle.flat.specs.Words.{Stored, byte_at};
ghost use Rattle.flat.specs.Lent.{Stores};
ghost use Rattle.flat_text_box.specs.TextBox.{indices_words, text_flags_words, measure_words, font_words, shadow_words, text_words, label_words, parts_words, text_box_words, origin_at, text_flags_at, measure_at, text_at, label_at, lines_at, text_box_at};

use flags::position::{HorizontalPosition, TextPosition, VerticalPosition};
use flags::text::{TextAlignment, TextPaneFlags};
use flat::words::{Words, WordsMut};
use flat::{layout, words};
use floats::Binary32;
use text_box_parts::{Span, Text};
use text_box_read::{FontMeasure, TextBoxPane};

// ---- stored

fn put_indices(out: &mut [u64], x: TextBoxPane)
    requires { 116 ≤ length out.old }
    ensures { Stored out.old 62 (indices_words x) out.new }
{
    let origin = x.text_origin;
    let horizontal = origin.horizontal;
    let vertical = origin.vertical;
    let alignment = x.text_alignment;
    let words = [
        x.text_buffer_size as u64,
        x.text_length as u64,
        x.material_index as u64,
        x.font_index as u64,
        u8::from(horizontal) as u64,
        u8::from(vertical) as u64,
        u8::from(alignment) as u64,
    ];
    words::store(out, layout::TEXT_BUFFER_SIZE, &words);
}

fn put_flags(out: &mut [u64], f: TextPaneFlags)
    requires { 116 ≤ length out.old }
    ensures { Stored out.old 69 (text_flags_words f) out.new }
{
    let words = [
        f.is_enable_shadow as u64,
        f.is_limit_glyph_count_to_length as u64,
        f.is_invisible_border as u64,
        f.is_double_border as u64,
        f.is_per_character_transform as u64,
        f.is_enable_center_ceiling as u64,
        f.is_line_transform as u64,
        f.is_default_tag_processor as u64,
        f.is_per_character_transform_split_by_char_width as u64,
        f.is_mix_shadow_alpha as u64,
        f.is_reverse as u64,
        f.is_per_character_transform_origin_to_center as u64,
        f.is_per_character_transform_fix_space as u64,
        f.is_per_character_transform_split_insert_space as u64,
    ];
    words::store(out, layout::TEXT_FLAGS, &words);
}

fn put_measure(out: &mut [u64], m: FontMeasure)
    requires { 116 ≤ length out.old }
    ensures { Stored out.old 83 (measure_words m) out.new }
{
    let words = match m {
        FontMeasure::Size(v) => [0u64, v.x.bits as u64, v.y.bits as u64],
        FontMeasure::Scale(v) => [1, v.x.bits as u64, v.y.bits as u64],
    };
    words::store(out, layout::MEASURE_KIND, &words);
}

fn put_font(out: &mut [u64], x: TextBoxPane)
    requires { 116 ≤ length out.old }
    ensures { Stored out.old 83 (font_words x) out.new }
{
    let measure = x.font_measure;
    let tilt = x.italic_tilt;
    let words = [tilt.bits as u64];
    put_measure(out, measure);
    words::store(out, layout::ITALIC_TILT, &words);
    words::store_color(out, layout::FONT_TOP_COLOR, x.font_top_color);
    words::store_color(out, layout::FONT_BOTTOM_COLOR, x.font_bottom_color);
}

fn put_shadow(out: &mut [u64], x: TextBoxPane)
    requires { 116 ≤ length out.old }
    ensures { Stored out.old 95 (shadow_words x) out.new }
{
    let t = x.shadow_translation;
    let s = x.shadow_size;
    let character = x.character_space;
    let line = x.line_space;
    let words = [
        character.bits as u64,
        line.bits as u64,
        t.x.bits as u64,
        t.y.bits as u64,
        s.x.bits as u64,
        s.y.bits as u64,
    ];
    words::store(out, layout::CHARACTER_SPACE, &words);
    words::store_color(out, layout::SHADOW_TOP_COLOR, x.shadow_top_color);
    words::store_color(out, layout::SHADOW_BOTTOM_COLOR, x.shadow_bottom_color);
}

fn put_text(out: &mut [u64], tilt: Binary32, x: Text)
    requires { 116 ≤ length out.old }
    ensures { Stored out.old 109 (text_words tilt x) out.new }
{
    let present = match x {
        Text::Absent => 0u64,
        Text::Present => 1,
    };
    words::store(
        out,
        layout::SHADOW_ITALIC_TILT,
        &[tilt.bits as u64, present],
    );
}

fn put_label(out: &mut [u64], x: Option<Span>)
    requires { 116 ≤ length out.old }
    ensures { Stored out.old 111 (label_words x) out.new }
{
    let words = match x {
        None => [0u64, 0, 0],
        Some(Span { place, length }) => [1, place as u64, length as u64],
    };
    words::store(out, layout::LABEL_PRESENT, &words);
}

fn put_parts(out: &mut [u64], x: TextBoxPane)
    requires { 116 ≤ length out.old }
    ensures { Stored out.old 109 (parts_words x) out.new }
{
    let text = x.text;
    let label = x.label;
    let table = x.line_table;
    put_text(out, x.shadow_italic_tilt, text);
    put_label(out, label);
    words::store_option(out, layout::LINES_PRESENT, table);
}

pub fn put_text_box<'a, 's>(out: &'s mut WordsMut<'a>, x: TextBoxPane)
    ensures { Stores out.old out.new 62 (text_box_words x) }
{
    let words = &mut *out.words;
    put_indices(words, x);
    put_flags(words, x.text_flags);
    put_font(words, x);
    put_shadow(words, x);
    put_parts(words, x);
}

// ---- read back

fn origin_of(w: Words) -> TextPosition
    ensures { result ≡ origin_at w.entry.words.now }
{
    let horizontal = HorizontalPosition::from(w.at::<u8>(layout::ORIGIN));
    let vertical = VerticalPosition::from(w.at::<u8>(layout::ORIGIN + 1));
    TextPosition {
        horizontal,
        vertical,
    }
}

fn alignment_of(w: Words) -> TextAlignment
    ensures { result ≡ alignment_of (byte_at w.entry.words.now 68) }
{
    TextAlignment::from(w.at::<u8>(layout::TEXT_ALIGNMENT))
}

fn flags_of(w: Words) -> TextPaneFlags
    ensures { result ≡ text_flags_at w.entry.words.now }
{
    TextPaneFlags {
        is_enable_shadow: w.at(layout::TEXT_FLAGS),
        is_limit_glyph_count_to_length: w.at(layout::TEXT_FLAGS + 1),
        is_invisible_border: w.at(layout::TEXT_FLAGS + 2),
        is_double_border: w.at(layout::TEXT_FLAGS + 3),
        is_per_character_transform: w.at(layout::TEXT_FLAGS + 4),
        is_enable_center_ceiling: w.at(layout::TEXT_FLAGS + 5),
        is_line_transform: w.at(layout::TEXT_FLAGS + 6),
        is_default_tag_processor: w.at(layout::TEXT_FLAGS + 7),
        is_per_character_transform_split_by_char_width: w.at(layout::TEXT_FLAGS + 8),
        is_mix_shadow_alpha: w.at(layout::TEXT_FLAGS + 9),
        is_reverse: w.at(layout::TEXT_FLAGS + 10),
        is_per_character_transform_origin_to_center: w.at(layout::TEXT_FLAGS + 11),
        is_per_character_transform_fix_space: w.at(layout::TEXT_FLAGS + 12),
        is_per_character_transform_split_insert_space: w.at(layout::TEXT_FLAGS + 13),
    }
}

fn measure_of(w: Words) -> FontMeasure
    ensures { result ≡ measure_at w.entry.words.now }
{
    let v = w.vector2_at(layout::MEASURE);
    if w.at(layout::MEASURE_KIND) {
        FontMeasure::Scale(v)
    } else {
        FontMeasure::Size(v)
    }
}

pub fn text_of(w: Words) -> Text
    ensures { result ≡ text_at w.entry.words.now }
{
    if w.at(layout::TEXT_PRESENT) {
        Text::Present
    } else {
        Text::Absent
    }
}

pub fn label_of(w: Words) -> Option<Span>
    ensures { result ≡ label_at w.entry.words.now }
{
    if w.at(layout::LABEL_PRESENT) {
        Some(Span {
            place: w.words[layout::LABEL_PLACE] as usize,
            length: w.words[layout::LABEL_LENGTH] as usize,
        })
    } else {
        None
    }
}

pub fn lines_of(w: Words) -> Option<u8>
    ensures { result ≡ lines_at w.entry.words.now }
{
    w.option_at(layout::LINES_PRESENT, layout::LINES_COUNT)
}

#[tactic(auto, unfolding(crate::specs::TextBox::text_box_at))]
pub fn text_box_of(w: Words) -> TextBoxPane
    ensures { result ≡ text_box_at w.entry.words.now }
{
    let text_origin = origin_of(w);
    let text_alignment = alignment_of(w);
    let text_flags = flags_of(w);
    let italic_tilt = w.at(layout::ITALIC_TILT);
    let font_top_color = w.color_at(layout::FONT_TOP_COLOR);
    let font_bottom_color = w.color_at(layout::FONT_BOTTOM_COLOR);
    let font_measure = measure_of(w);
    let character_space = w.at(layout::CHARACTER_SPACE);
    let line_space = w.at(layout::LINE_SPACE);
    let shadow_translation = w.vector2_at(layout::SHADOW_TRANSLATION);
    let shadow_size = w.vector2_at(layout::SHADOW_SIZE);
    let shadow_top_color = w.color_at(layout::SHADOW_TOP_COLOR);
    let shadow_bottom_color = w.color_at(layout::SHADOW_BOTTOM_COLOR);
    let shadow_italic_tilt = w.at(layout::SHADOW_ITALIC_TILT);
    let text = text_of(w);
    let label = label_of(w);
    let line_table = lines_of(w);
    TextBoxPane {
        text_buffer_size: w.at(layout::TEXT_BUFFER_SIZE),
        text_length: w.at(layout::TEXT_LENGTH),
        material_index: w.at(layout::TEXT_MATERIAL),
        font_index: w.at(layout::FONT),
        text_origin,
        text_alignment,
        text_flags,
        italic_tilt,
        font_top_color,
        font_bottom_color,
        font_measure,
        character_space,
        line_space,
        shadow_translation,
        shadow_size,
        shadow_top_color,
        shadow_bottom_color,
        shadow_italic_tilt,
        text,
        label,
        line_table,
    }
}
