// The words of the base.
ghost use Rattle.std.specs.Prelude.{◌≤◌, ◌+◌, length, ◌∷◌, ◌≡◌};
ghost use Rattle.flat.specs.Words.{Stored};
ghost use Rattle.flat.specs.Lent.{Stores};
ghost use Rattle.flat.specs.Base.{pane_flags_words, position_words, flag_ex_words, transform_words, base_words, pane_flags_at, position_at, flag_ex_at, string_at, base_at};

use crate::words::{Words, WordsMut};
use crate::{layout, words};
use core_read::text::FixedString;
use flags::pane::{PaneFlags, PaneFlagsEx};
use flags::position::{BflytPosition, HorizontalPosition, VerticalPosition};
use pane_read::Pane;
use ui2d::{Vector2f, Vector3f};

// ---- stored

fn put_flags(out: &mut [u64], f: PaneFlags)
    requires { 116 ≤ length out.old }
    ensures { Stored out.old 1 (pane_flags_words f) out.new }
{
    let words = [
        f.is_visible as u64,
        f.influenced_alpha as u64,
        f.location_adjust as u64,
        f.user_allocated as u64,
        f.is_global_matrix_dirty as u64,
        f.is_srt_matrix_user as u64,
        f.is_global_matrix_user as u64,
        f.is_constant_buffer_ready as u64,
    ];
    words::store(out, layout::PANE_FLAGS, &words);
}

fn put_position(out: &mut [u64], g: BflytPosition)
    requires { 116 ≤ length out.old }
    ensures { Stored out.old 9 (position_words g) out.new }
{
    let x = g.position_x;
    let y = g.position_y;
    let parent_x = g.parent_relative_position_x;
    let parent_y = g.parent_relative_position_y;
    let words = [
        u8::from(x) as u64,
        u8::from(y) as u64,
        u8::from(parent_x) as u64,
        u8::from(parent_y) as u64,
    ];
    words::store(out, layout::POSITION, &words);
}

fn put_flag_ex(out: &mut [u64], alpha: u8, x: PaneFlagsEx)
    requires { 116 ≤ length out.old }
    ensures { Stored out.old 13 (flag_ex_words alpha x) out.new }
{
    let words = [
        alpha as u64,
        x.is_no_scale_by_parts as u64,
        x.is_scale_size_by_parts_root as u64,
        x.is_ext_user_data as u64,
        x.reserve0 as u64,
    ];
    words::store(out, layout::ALPHA, &words);
}

// A fixed string: its count, and from the next word on every byte of the array.
fn put_string(out: &mut [u64], at: usize, count: usize, bytes: &[u8])
    requires { at + 1 + length bytes.now ≤ length out.old }
    ensures { Stored out.old at (count ∷ bytes.now) out.new }
{
    out[at] = count as u64;
    words::store_bytes(out, at + 1, bytes);
}

fn put_transform(out: &mut [u64], t: Vector3f, r: Vector3f, c: Vector2f, s: Vector2f)
    requires { 116 ≤ length out.old }
    ensures { Stored out.old 52 (transform_words t r c s) out.new }
{
    let words = [
        t.x.bits as u64,
        t.y.bits as u64,
        t.z.bits as u64,
        r.x.bits as u64,
        r.y.bits as u64,
        r.z.bits as u64,
        c.x.bits as u64,
        c.y.bits as u64,
        s.x.bits as u64,
        s.y.bits as u64,
    ];
    words::store(out, layout::TRANSLATION, &words);
}

pub fn put_base<'a, 's>(out: &'s mut WordsMut<'a>, b: Pane)
    ensures { Stores out.old out.new 1 (base_words b) × (length (base_words b) ≡ 61) }
{
    let words = &mut *out.words;
    put_flags(words, b.pane_flags);
    put_position(words, b.position);
    put_flag_ex(words, b.alpha, b.flag_ex);
    put_string(
        words,
        layout::NAME_COUNT,
        b.pane_name.count,
        &b.pane_name.bytes,
    );
    put_string(
        words,
        layout::USER_COUNT,
        b.user_name.count,
        &b.user_name.bytes,
    );
    put_transform(words, b.translation, b.rotation, b.scale, b.size);
}

// ---- read back

fn flags_of(w: Words) -> PaneFlags
    ensures { result ≡ pane_flags_at w.entry.words.now }
{
    PaneFlags {
        is_visible: w.at(layout::PANE_FLAGS),
        influenced_alpha: w.at(layout::PANE_FLAGS + 1),
        location_adjust: w.at(layout::PANE_FLAGS + 2),
        user_allocated: w.at(layout::PANE_FLAGS + 3),
        is_global_matrix_dirty: w.at(layout::PANE_FLAGS + 4),
        is_srt_matrix_user: w.at(layout::PANE_FLAGS + 5),
        is_global_matrix_user: w.at(layout::PANE_FLAGS + 6),
        is_constant_buffer_ready: w.at(layout::PANE_FLAGS + 7),
    }
}

fn position_of(w: Words) -> BflytPosition
    ensures { result ≡ position_at w.entry.words.now }
{
    let position_x = HorizontalPosition::from(w.at::<u8>(layout::POSITION));
    let position_y = VerticalPosition::from(w.at::<u8>(layout::POSITION + 1));
    let parent_relative_position_x = HorizontalPosition::from(w.at::<u8>(layout::POSITION + 2));
    let parent_relative_position_y = VerticalPosition::from(w.at::<u8>(layout::POSITION + 3));
    BflytPosition {
        position_x,
        position_y,
        parent_relative_position_x,
        parent_relative_position_y,
    }
}

fn flag_ex_of(w: Words) -> PaneFlagsEx
    ensures { result ≡ flag_ex_at w.entry.words.now }
{
    PaneFlagsEx {
        is_no_scale_by_parts: w.at(layout::FLAG_EX),
        is_scale_size_by_parts_root: w.at(layout::FLAG_EX + 1),
        is_ext_user_data: w.at(layout::FLAG_EX + 2),
        reserve0: w.at(layout::RESERVE0),
    }
}

// A fixed string, as put_string stores it.
fn string_of<const N: usize>(w: Words, at: usize) -> FixedString<N>
    requires { at + 1 + N ≤ length w.words.now }
    ensures { result ≡ string_at N w.entry.words.now at }
{
    let mut bytes = [0u8; N];
    w.bytes_at(at + 1, &mut bytes);
    let count = w.words[at] as usize;
    FixedString { bytes, count }
}

#[tactic(auto, unfolding(crate::specs::Base::base_at))]
pub fn base_of(w: Words) -> Pane
    ensures { result ≡ base_at w.entry.words.now }
{
    let pane_flags = flags_of(w);
    let position = position_of(w);
    let alpha = w.at(layout::ALPHA);
    let flag_ex = flag_ex_of(w);
    let pane_name = string_of(w, layout::NAME_COUNT);
    let user_name = string_of(w, layout::USER_COUNT);
    let translation = w.vector3_at(layout::TRANSLATION);
    let rotation = w.vector3_at(layout::ROTATION);
    let scale = w.vector2_at(layout::SCALE);
    let size = w.vector2_at(layout::SIZE);
    Pane {
        pane_flags,
        position,
        alpha,
        flag_ex,
        pane_name,
        user_name,
        translation,
        rotation,
        scale,
        size,
    }
}
