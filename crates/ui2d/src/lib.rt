// Vectors, colours and quads: at a place of lent bytes, and quads in a lent list of bits.
#![tactic(auto)]

pub mod material;
pub mod quads;

ghost use Rattle.std.specs.Prelude.{◌≡◌, ◌+◌, ◌≤◌, ◌<◌, length};
ghost use Rattle.core_read.specs.Bytes.{Room, splice};
ghost use Rattle.core_read.specs.Steps.{Took, Stands};
ghost use Rattle.core_write.specs.Puts.{HasRoom, Puts};
ghost use Rattle.ui2d.specs.Parts.{vector2_taken, vector3_taken, color_taken, colors_taken, encode_vector2, encode_vector3, encode_color, encode_colors, encode_quad};
ghost use Rattle.ui2d.specs.Quads.{vector_at, quad_at, quad_bits};
ghost use Rattle.ui2d.specs.Typed.{TypedVector2, TypedVector3, TypedColor, TypedColors};

use core_read::error::Refusal;
use core_read::reader::{Field, Reader, Source};
use core_write::writer::Writer;
use floats::Binary32;

#[derive(Clone, Copy)]
pub struct Vector2f {
    pub x: Binary32,
    pub y: Binary32,
}

#[derive(Clone, Copy)]
pub struct Vector3f {
    pub x: Binary32,
    pub y: Binary32,
    pub z: Binary32,
}

#[derive(Clone, Copy)]
pub struct Color4u8 {
    pub r: u8,
    pub g: u8,
    pub b: u8,
    pub a: u8,
}

// nnbfl's TextureUv.
#[derive(Clone, Copy)]
pub struct Quad {
    pub top_left: Vector2f,
    pub top_right: Vector2f,
    pub bottom_left: Vector2f,
    pub bottom_right: Vector2f,
}

// ---- read

impl Field for Vector2f {
    ghost taken = { vector2_taken };

    const WIDTH: usize = 8;

    ghost WIDTH = { 8 };

    #[tactic(auto, unfolding(crate::specs::Parts::vector2_taken, core_read::specs::Taken::number_taken))]
    fn fields<'a, 's>(r: &'s mut Reader<'a>) -> Result<Vector2f, Refusal> {
        let x = Binary32 { bits: r.number()? };
        let y = Binary32 { bits: r.number()? };
        Ok(Vector2f { x, y })
    }

    fn at<'a>(source: Source<'a>, at: usize) -> Vector2f {
        let x = Binary32 {
            bits: source.number_at(at),
        };
        let y = Binary32 {
            bits: source.number_at(at + 4),
        };
        Vector2f { x, y }
    }
}

impl Field for Vector3f {
    ghost taken = { vector3_taken };

    const WIDTH: usize = 12;

    ghost WIDTH = { 12 };

    #[tactic(auto, unfolding(crate::specs::Parts::vector3_taken, core_read::specs::Taken::number_taken))]
    fn fields<'a, 's>(r: &'s mut Reader<'a>) -> Result<Vector3f, Refusal> {
        let x = Binary32 { bits: r.number()? };
        let y = Binary32 { bits: r.number()? };
        let z = Binary32 { bits: r.number()? };
        Ok(Vector3f { x, y, z })
    }

    fn at<'a>(source: Source<'a>, at: usize) -> Vector3f {
        let x = Binary32 {
            bits: source.number_at(at),
        };
        let y = Binary32 {
            bits: source.number_at(at + 4),
        };
        let z = Binary32 {
            bits: source.number_at(at + 8),
        };
        Vector3f { x, y, z }
    }
}

impl Field for Color4u8 {
    ghost taken = { color_taken };

    const WIDTH: usize = 4;

    ghost WIDTH = { 4 };

    #[tactic(auto, unfolding(crate::specs::Parts::color_taken, core_read::specs::Taken::number_taken))]
    fn fields<'a, 's>(rr: &'s mut Reader<'a>) -> Result<Color4u8, Refusal> {
        let r = rr.number()?;
        let g = rr.number()?;
        let b = rr.number()?;
        let a = rr.number()?;
        Ok(Color4u8 { r, g, b, a })
    }

    fn at<'a>(source: Source<'a>, at: usize) -> Color4u8 {
        Color4u8 {
            r: source.number_at(at),
            g: source.number_at(at + 1),
            b: source.number_at(at + 2),
            a: source.number_at(at + 3),
        }
    }
}

// The colours of the corners: top left, top right, bottom left, bottom right. They are an array, which is no type of this crate, so that it can make no Field of them.
#[tactic(auto, unfolding(crate::specs::Parts::colors_taken, crate::specs::Parts::color_taken, core_read::specs::Taken::number_taken))]
pub fn read_colors<'a, 's>(r: &'s mut Reader<'a>) -> Result<[Color4u8; 4], Refusal>
    ensures { Took r.old r.new result colors_taken }
{
    let top_left = r.take()?;
    let top_right = r.take()?;
    let bottom_left = r.take()?;
    let bottom_right = r.take()?;
    Ok([top_left, top_right, bottom_left, bottom_right])
}

pub fn colors_at<'a>(source: Source<'a>, at: usize) -> [Color4u8; 4]
    requires { (at < length source.«data».now) × Room source.«data».now at 16 }
    ensures { Stands (colors_taken source.entry.order source.entry.«data».now) at 16 result }
{
    let top_left = Color4u8::at(source, at);
    let top_right = Color4u8::at(source, at + 4);
    let bottom_left = Color4u8::at(source, at + 8);
    let bottom_right = Color4u8::at(source, at + 12);
    [top_left, top_right, bottom_left, bottom_right]
}

// ---- written

pub fn put_vector2<'a, 's>(w: &'s mut Writer<'a>, v: Vector2f)
    requires { HasRoom w.old 8 }
    ensures { Puts w.old w.new 8 (λ order. encode_vector2 order v) }
{
    w.put_number(v.x.bits);
    w.put_number(v.y.bits);
}

pub fn put_vector3<'a, 's>(w: &'s mut Writer<'a>, v: Vector3f)
    requires { HasRoom w.old 12 }
    ensures { Puts w.old w.new 12 (λ order. encode_vector3 order v) }
{
    w.put_number(v.x.bits);
    w.put_number(v.y.bits);
    w.put_number(v.z.bits);
}

pub fn put_color<'a, 's>(w: &'s mut Writer<'a>, v: Color4u8)
    requires { HasRoom w.old 4 }
    ensures { Puts w.old w.new 4 (λ order. encode_color order v) }
{
    w.put_number(v.r);
    w.put_number(v.g);
    w.put_number(v.b);
    w.put_number(v.a);
}

pub fn put_colors<'a, 's>(w: &'s mut Writer<'a>, v: [Color4u8; 4])
    requires { HasRoom w.old 16 }
    ensures { Puts w.old w.new 16 (λ order. encode_colors order v) }
{
    put_color(w, v[0]);
    put_color(w, v[1]);
    put_color(w, v[2]);
    put_color(w, v[3]);
}

pub fn put_quad<'a, 's>(w: &'s mut Writer<'a>, v: Quad)
    requires { HasRoom w.old 32 }
    ensures { Puts w.old w.new 32 (λ order. encode_quad order v) }
{
    put_vector2(w, v.top_left);
    put_vector2(w, v.top_right);
    put_vector2(w, v.bottom_left);
    put_vector2(w, v.bottom_right);
}

// ---- quads in a lent list of bits, each at eight numbers; `at` counts numbers

// Four places by hand: a pattern of the eight numbers, [a, b, c, d, e, f, g, h], is no plainer.
fn load_vector(list: &[u32], at: usize) -> Vector2f
    requires { at + 2 ≤ length list.now }
    ensures { result ≡ vector_at list.now at }
{
    Vector2f {
        x: Binary32 { bits: list[at] },
        y: Binary32 { bits: list[at + 1] },
    }
}

pub fn load_quad(list: &[u32], at: usize) -> Quad
    requires { at + 8 ≤ length list.now }
    ensures { result ≡ quad_at list.now at }
{
    let top_left = load_vector(list, at);
    let top_right = load_vector(list, at + 2);
    let bottom_left = load_vector(list, at + 4);
    let bottom_right = load_vector(list, at + 6);
    Quad {
        top_left,
        top_right,
        bottom_left,
        bottom_right,
    }
}

pub fn store_quad(list: &mut [u32], at: usize, q: Quad)
    requires { at + 8 ≤ length list.old }
    ensures { list.new ≡ splice list.old at (quad_bits q) }
{
    list[at] = q.top_left.x.bits;
    list[at + 1] = q.top_left.y.bits;
    list[at + 2] = q.top_right.x.bits;
    list[at + 3] = q.top_right.y.bits;
    list[at + 4] = q.bottom_left.x.bits;
    list[at + 5] = q.bottom_left.y.bits;
    list[at + 6] = q.bottom_right.x.bits;
    list[at + 7] = q.bottom_right.y.bits;
}

// ---- what the types guarantee

pub fn typed_vector2(v: Vector2f)
    ensures { TypedVector2 v }
{}

pub fn typed_vector3(v: Vector3f)
    ensures { TypedVector3 v }
{}

pub fn typed_color(v: Color4u8)
    ensures { TypedColor v }
{}

pub fn typed_colors(v: [Color4u8; 4])
    ensures { TypedColors v }
{
    typed_color(v[0]);
    typed_color(v[1]);
    typed_color(v[2]);
    typed_color(v[3]);
}
