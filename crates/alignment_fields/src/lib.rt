// What an alignment pane has beyond the base, 12 bytes.
#![tactic(auto)]

ghost use Rattle.std.specs.Prelude.{◌≡◌};
ghost use Rattle.core_write.specs.Puts.{HasRoom, Puts};
ghost use Rattle.alignment_fields.specs.Alignment.{alignment_taken, blank_alignment, encode_alignment, TypedAlignment};

use core_read::error::Refusal;
use core_read::reader::{Field, Reader, Source};
use core_write::writer::Writer;
use floats::Binary32;

#[derive(Clone, Copy)]
pub struct AlignmentPane {
    pub direction: u32,
    pub default_margin: Binary32,
    pub is_align_last_pane: bool,
    pub is_vertical_alignment: bool,
}

// The reserved u16 is read, and kept nowhere.
impl Field for AlignmentPane {
    ghost taken = { alignment_taken };

    const WIDTH: usize = 12;

    ghost WIDTH = { 12 };

    #[tactic(auto, unfolding(crate::specs::Alignment::alignment_taken, core_read::specs::Taken::number_taken))]
    fn fields<'a, 's>(r: &'s mut Reader<'a>) -> Result<AlignmentPane, Refusal> {
        let direction = r.number::<u32>()?;
        let default_margin = Binary32 { bits: r.number()? };
        let last = r.number::<u8>()?;
        let vertical = r.number::<u8>()?;
        r.number::<u16>()?;
        Ok(AlignmentPane {
            direction,
            default_margin,
            is_align_last_pane: last != 0,
            is_vertical_alignment: vertical != 0,
        })
    }

    fn at<'a>(source: Source<'a>, at: usize) -> AlignmentPane {
        AlignmentPane {
            direction: source.number_at(at),
            default_margin: Binary32 {
                bits: source.number_at(at + 4),
            },
            is_align_last_pane: source.number_at::<u8>(at + 8) != 0,
            is_vertical_alignment: source.number_at::<u8>(at + 9) != 0,
        }
    }
}

#[tactic(auto, unfolding(crate::specs::Alignment::blank_alignment))]
pub fn blank_alignment() -> AlignmentPane
    ensures { result ≡ blank_alignment }
{
    AlignmentPane {
        direction: 0,
        default_margin: Binary32 { bits: 0 },
        is_align_last_pane: false,
        is_vertical_alignment: false,
    }
}

impl Default for AlignmentPane {
    ghost is_default = { λ a. a ≡ blank_alignment };

    fn default() -> AlignmentPane {
        blank_alignment()
    }
}

// By a writer of its own: a compiler keeps its place and output in registers, and reads those of a lent one anew for each number.
pub fn put_alignment<'a, 's>(w: &'s mut Writer<'a>, a: AlignmentPane)
    requires { HasRoom w.old 12 }
    ensures { Puts w.old w.new 12 (λ order. encode_alignment order a) }
{
    let mut own = Writer {
        order: w.order,
        out: &mut *w.out,
        place: w.place,
    };
    own.put_number(a.direction);
    own.put_number(a.default_margin.bits);
    own.put_number(u8::from(a.is_align_last_pane));
    own.put_number(u8::from(a.is_vertical_alignment));
    own.put_number(0u16);
    w.place = own.place;
}

// Every alignment pane is one that TypedAlignment describes.
pub fn typed_alignment(a: AlignmentPane)
    ensures { TypedAlignment a }
{}
