// What a picture pane has beyond the base: 20 bytes, its quads, and a shape index if it has one. The quads stand in a lent list of bits.
#![tactic(auto)]

ghost use Rattle.std.specs.Prelude.{◌≡◌, ◌^◌, ◌<◌, length};
ghost use Rattle.core_read.specs.Steps.{Took};
ghost use Rattle.core_read.specs.Taken.{over};
ghost use Rattle.core_checks.specs.Answered.{Lets};
ghost use Rattle.core_write.specs.Puts.{HasRoom, Puts};
ghost use Rattle.picture_fields.specs.Picture.{head_taken, shape_taken, picture_taken, quads_of, Measured, blank_picture, picture_checked, GoodPicture, shape_byte, shape_length, encode_shape, picture_length, encode_picture};
ghost use Rattle.picture_fields.specs.Typed.{TypedShape, TypedPicture};

use core_checks::checks;
use core_read::cursor::Cursor;
use core_read::error::{NumberList, Refusal};
use core_read::reader::{Field, Reader, Source};
use core_write::writer::Writer;
use ui2d::Color4u8;
use ui2d::material::Material;
use ui2d::quads::{fill_quads, put_quads};

// Colours of the corners: top left, top right, bottom left, bottom right. The count is that of the read; a write takes it from the lent list.
#[derive(Clone, Copy)]
pub struct PicturePane {
    pub vertex_colors: [Color4u8; 4],
    pub material_index: u16,
    pub shape_info_array_index: Option<u32>,
    pub quad_count: u8,
}

// What stands before the quads: the colours, and the material with the quad count and the shape byte.
#[derive(Clone, Copy)]
struct PictureHead {
    vertex_colors: [Color4u8; 4],
    material: Material,
}

// A picture that was measured, and where its quads begin.
#[derive(Clone, Copy)]
pub struct PictureFound {
    pub picture: PicturePane,
    pub quads: Cursor,
}

// ---- reading

impl Field for PictureHead {
    ghost taken = { head_taken };

    const WIDTH: usize = 20;

    ghost WIDTH = { 20 };

    #[tactic(auto, unfolding(crate::specs::Picture::head_taken, ui2d::specs::Material::material_taken, core_read::specs::Taken::number_taken))]
    fn fields<'a, 's>(r: &'s mut Reader<'a>) -> Result<PictureHead, Refusal> {
        let vertex_colors = ui2d::read_colors(r)?;
        let material = r.take()?;
        Ok(PictureHead {
            vertex_colors,
            material,
        })
    }

    fn at<'a>(source: Source<'a>, at: usize) -> PictureHead {
        PictureHead {
            vertex_colors: ui2d::colors_at(source, at),
            material: Material::at(source, at + 16),
        }
    }
}

// A shape index where its byte is nonzero.
#[tactic(auto, unfolding(crate::specs::Picture::shape_taken))]
fn take_shape<'a, 's>(r: &'s mut Reader<'a>, byte: u8) -> Result<Option<u32>, Refusal>
    ensures { Took r.old r.new result (λ order s p. shape_taken order s p byte) }
{
    if byte == 0 {
        return Ok(None);
    }
    let index = r.number()?;
    Ok(Some(index))
}

// The quads are only passed.
#[tactic(auto, using(core_read::proofs::Lists::numbers_stay, crate::proofs::Run::shape_stays), unfolding(crate::specs::Picture::picture_taken, crate::specs::Picture::head_taken, ui2d::specs::Material::material_taken, core_read::specs::Taken::number_taken))]
pub fn measure_picture<'a, 's>(r: &'s mut Reader<'a>) -> Result<PictureFound, Refusal>
    ensures { Took r.old r.new result picture_taken }
{
    let head = r.take::<PictureHead>()?;
    let vertex_colors = head.vertex_colors;
    let material = head.material;
    let quads = r.cursor;
    let n = material.first as usize;
    r.pass::<u32>(8 * n)?;
    let shape_info_array_index = take_shape(r, material.second)?;
    Ok(PictureFound {
        picture: PicturePane {
            vertex_colors,
            material_index: material.index,
            shape_info_array_index,
            quad_count: material.first,
        },
        quads,
    })
}

// The quads of a picture that was measured, at the front of a list.
pub fn fill_picture<'a>(source: Source<'a>, found: PictureFound, quads: &mut [u32])
    requires { Measured source.«data».now found (length quads.old) }
    ensures { quads.new ≡ over (quads_of source.entry.order source.entry.«data».now found) quads.old }
{
    let n = found.picture.quad_count as usize;
    fill_quads(source, found.quads.pos, n, quads);
}

// The picture beside a refusal.
#[tactic(auto, unfolding(crate::specs::Picture::blank_picture))]
pub fn blank_picture() -> PicturePane
    ensures { result ≡ blank_picture }
{
    let zero = Color4u8 {
        r: 0,
        g: 0,
        b: 0,
        a: 0,
    };
    let vertex_colors = [zero, zero, zero, zero];
    PicturePane {
        vertex_colors,
        material_index: 0,
        shape_info_array_index: None,
        quad_count: 0,
    }
}

impl Default for PicturePane {
    ghost is_default = { λ x. x ≡ blank_picture };

    fn default() -> PicturePane {
        blank_picture()
    }
}

// ---- writing

// 11
#[tactic(auto, unfolding(crate::specs::Picture::picture_checked))]
pub fn picture_checked(quads: &[u32]) -> Result<(), Refusal>
    ensures { Lets result (λ p. picture_checked p quads.now) }
{
    checks::count_checked(NumberList::Quads, 8, quads.len())
}

fn shape_byte(x: Option<u32>) -> u8
    ensures { result ≡ shape_byte x }
{
    match x {
        None => 0,
        Some(_) => 1,
    }
}

fn shape_length(x: Option<u32>) -> usize
    ensures { result ≡ shape_length x }
{
    match x {
        None => 0,
        Some(_) => 4,
    }
}

// The bytes beyond the base.
#[tactic(auto, using(crate::proofs::Run::shape_short), unfolding(crate::specs::Picture::picture_length))]
pub fn picture_length(x: PicturePane, quads: &[u32]) -> usize
    requires { GoodPicture quads.now }
    ensures { result ≡ picture_length x quads.now }
{
    20 + 4 * quads.len() + shape_length(x.shape_info_array_index)
}

#[tactic(auto, using(core_write::proofs::Chain::puts_none), unfolding(crate::specs::Picture::encode_shape))]
fn put_shape<'a, 's>(w: &'s mut Writer<'a>, x: Option<u32>)
    requires { HasRoom w.old (shape_length x) }
    ensures { Puts w.old w.new (shape_length x) (λ order. encode_shape order x) }
{
    match x {
        None => {}
        Some(index) => w.put_number(index),
    }
}

// The picture after the base. By a writer of its own, whose place and output a compiler keeps in registers.
#[tactic(auto, unfolding(crate::specs::Picture::picture_length))]
pub fn put_picture<'a, 's>(w: &'s mut Writer<'a>, x: PicturePane, quads: &[u32])
    requires { GoodPicture quads.now × HasRoom w.old (picture_length x quads.now) }
    ensures { Puts w.old w.new (picture_length x quads.now) (λ order. encode_picture order x quads.now) }
{
    let count = (quads.len() / 8) as u8;
    let shape = x.shape_info_array_index;
    let mut own = Writer {
        order: w.order,
        out: &mut *w.out,
        place: w.place,
    };
    ui2d::put_colors(&mut own, x.vertex_colors);
    own.put_number(x.material_index);
    own.put_number(count);
    own.put_number(shape_byte(shape));
    put_quads(&mut own, quads);
    put_shape(&mut own, shape);
    w.place = own.place;
}

// ---- what the types say

fn typed_index(index: u32)
    ensures { index < 256 ^ 4 }
{}

fn typed_shape(x: Option<u32>)
    ensures { TypedShape x }
{
    match x {
        None => {}
        Some(index) => typed_index(index),
    }
}

// Every picture is one that TypedPicture describes.
pub fn typed_picture(x: PicturePane)
    ensures { TypedPicture x }
{
    let colors = x.vertex_colors;
    let shape = x.shape_info_array_index;
    ui2d::typed_colors(colors);
    typed_shape(shape);
}
