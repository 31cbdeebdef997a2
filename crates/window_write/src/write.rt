// A window's checks, its length and its bytes.
ghost use Rattle.std.specs.Prelude.{◌≡◌, ◌+◌, ◌*◌, ◌/◌, ◌%◌, ◌^◌, ◌≤◌, ◌<◌, length};
ghost use Rattle.core_read.specs.Bytes.{bytes_of_all};
ghost use Rattle.core_write.specs.Puts.{HasRoom, Puts};
ghost use Rattle.core_checks.specs.Answered.{Lets};
ghost use Rattle.window_write.specs.Write.{flips_checked, window_checked, GoodWindow, content_padding, window_length, encode_sides, encode_borders, encode_head, encode_content, frame_offsets, encode_frame, encode_frames, encode_window};

use core_checks::checks;
use core_read::error::{NumberList, Refusal};
use core_write::writer;
use core_write::writer::Writer;
use window_head::Sides;
use window_read::{WindowContent, WindowPane};

// ---- checks

// 12: the first frame whose flip is above 5.
fn flips_checked(frames: &[u16]) -> Result<(), Refusal>
    ensures { Lets result (λ p. flips_checked p 0 frames.now) }
{
    let (pairs, _) = frames.as_chunks::<2>();
    for (frame, pair) in pairs.iter().enumerate() {
        let flip = pair[1];
        if 5 < flip {
            let flip = flip as usize;
            return Err(Refusal::BadFlip { frame, flip });
        }
    }
    Ok(())
}

// 11 for the quads, 11 for the frames, 12.
#[tactic(auto, using(crate::proofs::Puts::flips_stopped), unfolding(crate::specs::Write::window_checked, core_checks::specs::Checks::count_checked, core_read::specs::Taken::stop_if))]
pub fn window_checked(quads: &[u32], frames: &[u16]) -> Result<(), Refusal>
    ensures { Lets result (λ p. window_checked p quads.now frames.now) }
{
    checks::count_checked(NumberList::Quads, 8, quads.len())?;
    checks::count_checked(NumberList::Frames, 2, frames.len())?;
    flips_checked(frames)
}

// ---- places

// The zeros after a content of some quad numbers.
fn content_padding(body: usize, quads: usize) -> usize
    requires { (body < 2 ^ 32) × (quads ≤ 2040) }
    ensures { (result ≡ content_padding body quads) × (result ≤ 3) }
{
    let place = body + 124 + 4 * quads;
    writer::padding_at(place)
}

// The bytes beyond the base.
pub fn window_length(body: usize, quads: usize, frames: usize) -> usize
    requires { (body < 2 ^ 32) × (quads ≤ 2040) × (frames ≤ 510) }
    ensures { (result ≡ window_length body quads frames) × (result ≤ 10251) }
{
    let zeros = content_padding(body, quads);
    48 + 4 * quads + zeros + 8 * (frames / 2)
}

// ---- bytes

fn put_sides<'a, 's>(w: &'s mut Writer<'a>, v: Sides)
    requires { HasRoom w.old 8 }
    ensures { Puts w.old w.new 8 (λ order. encode_sides order v.left v.right v.top v.bottom) }
{
    w.put_number(v.left);
    w.put_number(v.right);
    w.put_number(v.top);
    w.put_number(v.bottom);
}

// Inflation, then frame size.
fn put_borders<'a, 's>(w: &'s mut Writer<'a>, x: WindowPane)
    requires { HasRoom w.old 16 }
    ensures { Puts w.old w.new 16 (λ order. encode_borders order x) }
{
    let inflation = Sides {
        left: x.inflation_left,
        right: x.inflation_right,
        top: x.inflation_top,
        bottom: x.inflation_bottom,
    };
    let frame_size = Sides {
        left: x.frame_size_left,
        right: x.frame_size_right,
        top: x.frame_size_top,
        bottom: x.frame_size_bottom,
    };
    put_sides(w, inflation);
    put_sides(w, frame_size);
}

// The 28 bytes, with a count of frames and the table's offset.
fn put_head<'a, 's>(w: &'s mut Writer<'a>, x: WindowPane, n: u8, table: u32)
    requires { HasRoom w.old 28 }
    ensures { Puts w.old w.new 28 (λ order. encode_head order x n table) }
{
    let f = x.flag;
    let flag = u8::from(f);
    put_borders(w, x);
    w.put_number(n);
    w.put_number(flag);
    w.put_number(0u16);
    w.put_number(112u32);
    w.put_number(table);
}

// Colours, material, quad count, 0 and the quads.
fn put_content<'a, 's>(w: &'s mut Writer<'a>, x: WindowContent, quads: &[u32])
    requires quads_len_bound { (length quads.now ≤ 2040) × (length quads.now % 8 ≡ 0) }
    requires room { HasRoom w.old (20 + 4 * length quads.now) }
    ensures { Puts w.old w.new (20 + 4 * length quads.now) (λ order. encode_content order x quads.now) }
{
    let count = (quads.len() / 8) as u8;
    ui2d::put_colors(w, x.vertex_colors);
    w.put_number(x.material_index);
    w.put_number(count);
    w.put_number(0u8);
    ui2d::quads::put_quads(w, quads);
}

// The table: n offsets from the first on.
fn put_each_offset<'a, 's>(w: &'s mut Writer<'a>, first: u32, n: usize)
    requires { (first + 4 * n < 2 ^ 32) × HasRoom w.old (4 * n) }
    ensures { Puts w.old w.new (4 * n) (λ order. bytes_of_all order 4 (frame_offsets first n)) }
{
    for i in 0..n as u32 {
        w.put_number(first + 4 * i);
    }
}

// The same, by a writer of its own, so that order, address and place stay in registers through the loop.
fn put_offsets<'a, 's>(w: &'s mut Writer<'a>, first: u32, n: usize)
    requires { (first + 4 * n < 2 ^ 32) × HasRoom w.old (4 * n) }
    ensures { Puts w.old w.new (4 * n) (λ order. bytes_of_all order 4 (frame_offsets first n)) }
{
    let mut own = Writer {
        order: w.order,
        out: &mut *w.out,
        place: w.place,
    };
    put_each_offset(&mut own, first, n);
    w.place = own.place;
}

// Material, flip, 0.
fn put_frame<'a, 's>(w: &'s mut Writer<'a>, material: u16, flip: u16)
    requires { HasRoom w.old 4 }
    ensures { Puts w.old w.new 4 (λ order. encode_frame order material flip) }
{
    w.put_number(material);
    w.put_number((flip % 256) as u8);
    w.put_number(0u8);
}

fn put_each_frame<'a, 's>(w: &'s mut Writer<'a>, frames: &[u16])
    requires { HasRoom w.old (4 * (length frames.now / 2)) }
    ensures { Puts w.old w.new (4 * (length frames.now / 2)) (λ order. encode_frames order frames.now) }
{
    let (pairs, _) = frames.as_chunks::<2>();
    for [material, flip] in pairs {
        put_frame(w, *material, *flip);
    }
}

// The same, by a writer of its own.
fn put_frames<'a, 's>(w: &'s mut Writer<'a>, frames: &[u16])
    requires { HasRoom w.old (4 * (length frames.now / 2)) }
    ensures { Puts w.old w.new (4 * (length frames.now / 2)) (λ order. encode_frames order frames.now) }
{
    let mut own = Writer {
        order: w.order,
        out: &mut *w.out,
        place: w.place,
    };
    put_each_frame(&mut own, frames);
    w.place = own.place;
}

// What a window has beyond the base, of a body at a place. By a writer of its own, whose place and output a compiler keeps in registers.
pub fn put_window<'a, 's>(
    w: &'s mut Writer<'a>,
    x: WindowPane,
    quads: &[u32],
    frames: &[u16],
    body: usize,
)
    requires body_bound { (body < 2 ^ 32) × GoodWindow quads.now frames.now }
    requires room { HasRoom w.old (window_length body (length quads.now) (length frames.now)) }
    ensures { Puts w.old w.new (window_length body (length quads.now) (length frames.now)) (λ order. encode_window order body x quads.now frames.now) }
{
    let content = x.content;
    let n = frames.len() / 2;
    let zeros = content_padding(body, quads.len());
    let table = 132 + 4 * quads.len() + zeros;
    let first = table + 4 * n;
    let mut own = Writer {
        order: w.order,
        out: &mut *w.out,
        place: w.place,
    };
    put_head(&mut own, x, n as u8, table as u32);
    put_content(&mut own, content, quads);
    own.put_zeros(zeros);
    put_offsets(&mut own, first as u32, n);
    put_frames(&mut own, frames);
    w.place = own.place;
}
