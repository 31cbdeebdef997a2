// The words that a window has beyond the base.
ghost use Rattle.std.specs.Prelude.{◌+◌, ◌≤◌, length, [], ◌∷◌, ◌≡◌};
ghost use Rattle.flat.specs.Words.{Stored};
ghost use Rattle.flat.specs.Lent.{Stores};
ghost use Rattle.core_read.specs.Bytes.{bits_of};
ghost use Rattle.flat_kinds.specs.Own.{window_flags_words, content_words, window_words, side_at, window_flags_at, content_at, window_at};

use core_read::signed;
use flags::window::{WindowFlags, WindowKind};
use flat::words::{Words, WordsMut};
use flat::{layout, words};
use window_read::{WindowContent, WindowPane};

// ---- stored

fn put_sides(out: &mut [u64], at: usize, left: i16, right: i16, top: i16, bottom: i16)
    requires { at + 4 ≤ length out.old }
    ensures { Stored out.old at (bits_of left ∷ bits_of right ∷ bits_of top ∷ bits_of bottom ∷ []) out.new }
{
    let words = [
        signed::bits_of(left) as u64,
        signed::bits_of(right) as u64,
        signed::bits_of(top) as u64,
        signed::bits_of(bottom) as u64,
    ];
    words::store(out, at, &words);
}

fn put_flag(out: &mut [u64], f: WindowFlags, frame_count: u8)
    requires { 116 ≤ length out.old }
    ensures { Stored out.old 70 (window_flags_words f frame_count) out.new }
{
    let kind = f.window_kind;
    let words = [
        f.use_left_corner_material as u64,
        f.use_vertex_color_for_all_window as u64,
        u8::from(kind) as u64,
        f.not_draw_content as u64,
        frame_count as u64,
    ];
    words::store(out, layout::WINDOW_FLAGS, &words);
}

fn put_content(out: &mut [u64], x: WindowContent)
    requires { 116 ≤ length out.old }
    ensures { Stored out.old 75 (content_words x) out.new }
{
    let colors = x.vertex_colors;
    let words = [x.material_index as u64, x.quad_count as u64];
    words::store_colors(out, layout::CONTENT_COLORS, colors);
    words::store(out, layout::CONTENT_MATERIAL, &words);
}

pub fn put_window<'a, 's>(out: &'s mut WordsMut<'a>, x: WindowPane)
    ensures { Stores out.old out.new 62 (window_words x) }
{
    let words = &mut *out.words;
    put_sides(
        words,
        layout::INFLATION,
        x.inflation_left,
        x.inflation_right,
        x.inflation_top,
        x.inflation_bottom,
    );
    put_sides(
        words,
        layout::FRAME_SIZE,
        x.frame_size_left,
        x.frame_size_right,
        x.frame_size_top,
        x.frame_size_bottom,
    );
    put_flag(words, x.flag, x.frame_count);
    put_content(words, x.content);
}

// ---- read back

fn side_at(w: Words, at: usize) -> i16
    requires { at + 1 ≤ length w.words.now }
    ensures { result ≡ side_at w.entry.words.now at }
{
    signed::signed_of(w.at(at))
}

fn flag_of(w: Words) -> WindowFlags
    ensures { result ≡ window_flags_at w.entry.words.now }
{
    let window_kind = WindowKind::from(w.at::<u8>(layout::WINDOW_KIND));
    WindowFlags {
        use_left_corner_material: w.at(layout::WINDOW_FLAGS),
        use_vertex_color_for_all_window: w.at(layout::WINDOW_FLAGS + 1),
        window_kind,
        not_draw_content: w.at(layout::NOT_DRAW_CONTENT),
    }
}

fn content_of(w: Words) -> WindowContent
    ensures { result ≡ content_at w.entry.words.now }
{
    let vertex_colors = w.colors_at(layout::CONTENT_COLORS);
    WindowContent {
        vertex_colors,
        material_index: w.at(layout::CONTENT_MATERIAL),
        quad_count: w.at(layout::CONTENT_QUADS),
    }
}

pub fn window_of(w: Words) -> WindowPane
    ensures { result ≡ window_at w.entry.words.now }
{
    let inflation_left = side_at(w, layout::INFLATION);
    let inflation_right = side_at(w, layout::INFLATION + 1);
    let inflation_top = side_at(w, layout::INFLATION + 2);
    let inflation_bottom = side_at(w, layout::INFLATION + 3);
    let frame_size_left = side_at(w, layout::FRAME_SIZE);
    let frame_size_right = side_at(w, layout::FRAME_SIZE + 1);
    let frame_size_top = side_at(w, layout::FRAME_SIZE + 2);
    let frame_size_bottom = side_at(w, layout::FRAME_SIZE + 3);
    let flag = flag_of(w);
    let content = content_of(w);
    WindowPane {
        inflation_left,
        inflation_right,
        inflation_top,
        inflation_bottom,
        frame_size_left,
        frame_size_right,
        frame_size_top,
        frame_size_bottom,
        flag,
        frame_count: w.at(layout::FRAMES_COUNT),
        content,
    }
}
