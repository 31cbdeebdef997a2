// Quads between the bytes and a lent list of bits.
ghost use Rattle.std.specs.Prelude.{◌≡◌, ◌++◌, ◌+◌, ◌*◌, ◌%◌, ◌≤◌, length, drop};
ghost use Rattle.core_read.specs.Bytes.{bytes_of_all, Room};
ghost use Rattle.core_read.specs.Lists.{numbers_at};
ghost use Rattle.core_write.specs.Puts.{HasRoom, Puts};
ghost use Rattle.ui2d.specs.Quads.{quad_at};

use crate::{Quad, Vector2f};
use core_read::reader::{Field, Source};
use core_write::writer::Writer;

// The quad of the eight numbers from a place on.
pub fn quad_at<'a>(source: Source<'a>, at: usize) -> Quad
    requires { Room source.«data».now at 32 }
    ensures { result ≡ quad_at (numbers_at source.entry.order 4 8 source.entry.«data».now at) 0 }
{
    let top_left = Vector2f::at(source, at);
    let top_right = Vector2f::at(source, at + 8);
    let bottom_left = Vector2f::at(source, at + 16);
    let bottom_right = Vector2f::at(source, at + 24);
    Quad {
        top_left,
        top_right,
        bottom_left,
        bottom_right,
    }
}

// The n quads from a place on, at the front of a list.
// By place: the contracts of chunks_exact_mut and as_chunks_mut say nothing of what the list is afterwards.
pub fn fill_quads<'a>(source: Source<'a>, at: usize, n: usize, list: &mut [u32])
    requires { Room source.«data».now at (32 * n) × (8 * n ≤ length list.old) }
    ensures { list.new ≡ numbers_at source.entry.order 4 (8 * n) source.entry.«data».now at ++ drop (8 * n) list.old }
{
    for i in 0..n {
        let quad = quad_at(source, at + 32 * i);
        crate::store_quad(list, 8 * i, quad);
    }
}

// The quads of a list, one after the other.
fn put_each<'a, 's>(w: &'s mut Writer<'a>, list: &[u32])
    requires { (length list.now % 8 ≡ 0) × HasRoom w.old (4 * length list.now) }
    ensures { Puts w.old w.new (4 * length list.now) (λ order. bytes_of_all order 4 list.now) }
{
    let (quads, _) = list.as_chunks::<8>();
    for numbers in quads {
        let quad = crate::load_quad(numbers, 0);
        crate::put_quad(w, quad);
    }
}

// The same, by a writer of its own, so that order, address and place stay in registers through the loop.
pub fn put_quads<'a, 's>(w: &'s mut Writer<'a>, list: &[u32])
    requires { (length list.now % 8 ≡ 0) × HasRoom w.old (4 * length list.now) }
    ensures { Puts w.old w.new (4 * length list.now) (λ order. bytes_of_all order 4 list.now) }
{
    let mut own = Writer {
        order: w.order,
        out: &mut *w.out,
        place: w.place,
    };
    put_each(&mut own, list);
    w.place = own.place;
}
