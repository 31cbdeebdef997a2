// The base pane, with which every kind begins: 76 bytes, and how they are read.
#![tactic(auto)]

pub mod parsed;

ghost use Rattle.std.specs.Prelude.{◌≡◌, ◌<◌, length};
ghost use Rattle.pane_read.specs.Pane.{pane_taken, blank_pane};
ghost use Rattle.pane_read.specs.Typed.{TypedPane};

use core_read::error::Refusal;
use core_read::reader::{Field, Reader, Source};
use core_read::text::FixedString;
use flags::pane::{PaneFlags, PaneFlagsEx};
use flags::position::BflytPosition;
use floats::Binary32;
use ui2d::{Vector2f, Vector3f};

#[derive(Clone, Copy)]
pub struct Pane {
    pub pane_flags: PaneFlags,
    pub position: BflytPosition,
    pub alpha: u8,
    pub flag_ex: PaneFlagsEx,
    pub pane_name: FixedString<24>,
    pub user_name: FixedString<8>,
    pub translation: Vector3f,
    pub rotation: Vector3f,
    pub scale: Vector2f,
    pub size: Vector2f,
}

// ---- reading

impl Field for Pane {
    ghost taken = { pane_taken };

    const WIDTH: usize = 76;

    ghost WIDTH = { 76 };

    #[tactic(auto, unfolding(crate::specs::Pane::pane_taken, ui2d::specs::Parts::vector2_taken, ui2d::specs::Parts::vector3_taken, core_read::specs::Taken::fixed_string_taken, core_read::specs::Taken::string_taken, core_read::specs::Taken::number_taken))]
    fn fields<'a, 's>(r: &'s mut Reader<'a>) -> Result<Pane, Refusal> {
        let pane_flags = PaneFlags::from(r.number::<u8>()?);
        let position = BflytPosition::from(r.number::<u8>()?);
        let alpha = r.number::<u8>()?;
        let flag_ex = PaneFlagsEx::from(r.number::<u8>()?);
        let pane_name = r.take::<FixedString<24>>()?;
        let user_name = r.take::<FixedString<8>>()?;
        let translation = r.take::<Vector3f>()?;
        let rotation = r.take::<Vector3f>()?;
        let scale = r.take::<Vector2f>()?;
        let size = r.take::<Vector2f>()?;
        Ok(Pane {
            pane_flags,
            position,
            alpha,
            flag_ex,
            pane_name,
            user_name,
            translation,
            rotation,
            scale,
            size,
        })
    }

    fn at<'a>(source: Source<'a>, at: usize) -> Pane {
        Pane {
            pane_flags: PaneFlags::from(source.number_at::<u8>(at)),
            position: BflytPosition::from(source.number_at::<u8>(at + 1)),
            alpha: source.number_at(at + 2),
            flag_ex: PaneFlagsEx::from(source.number_at::<u8>(at + 3)),
            pane_name: FixedString::at(source, at + 4),
            user_name: FixedString::at(source, at + 28),
            translation: Vector3f::at(source, at + 36),
            rotation: Vector3f::at(source, at + 48),
            scale: Vector2f::at(source, at + 60),
            size: Vector2f::at(source, at + 68),
        }
    }
}

#[tactic(auto, unfolding(crate::specs::Pane::blank_pane))]
fn zero2() -> Vector2f
    ensures { result ≡ blank_pane.scale }
{
    Vector2f {
        x: Binary32 { bits: 0 },
        y: Binary32 { bits: 0 },
    }
}

#[tactic(auto, unfolding(crate::specs::Pane::blank_pane))]
fn zero3() -> Vector3f
    ensures { result ≡ blank_pane.translation }
{
    Vector3f {
        x: Binary32 { bits: 0 },
        y: Binary32 { bits: 0 },
        z: Binary32 { bits: 0 },
    }
}

// The pane of no bytes: numbers 0, first cases, false.
#[tactic(auto, unfolding(crate::specs::Pane::blank_pane))]
pub fn blank_pane() -> Pane
    ensures { result ≡ blank_pane }
{
    Pane {
        pane_flags: PaneFlags::from(0),
        position: BflytPosition::from(0),
        alpha: 0,
        flag_ex: PaneFlagsEx::from(0),
        pane_name: FixedString {
            bytes: [0u8; 24],
            count: 0,
        },
        user_name: FixedString {
            bytes: [0u8; 8],
            count: 0,
        },
        translation: zero3(),
        rotation: zero3(),
        scale: zero2(),
        size: zero2(),
    }
}

// ---- what the types say

fn typed_byte(v: u8)
    ensures { v < 256 }
{}

fn typed_string<const N: usize>(n: FixedString<N>)
    ensures { length n.entry.bytes ≡ N }
{}

// Every pane is one that TypedPane describes.
pub fn typed_pane(b: Pane)
    ensures { TypedPane b }
{
    typed_byte(b.alpha);
    typed_byte(b.flag_ex.reserve0);
    typed_string(b.pane_name);
    typed_string(b.user_name);
    ui2d::typed_vector3(b.translation);
    ui2d::typed_vector3(b.rotation);
    ui2d::typed_vector2(b.scale);
    ui2d::typed_vector2(b.size);
}
