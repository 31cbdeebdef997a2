// The 84 fixed bytes of a text box after the base, in three chunks: read by one test where all are there, else field by field.
ghost use Rattle.text_box_fixed.specs.Fixed.{head_taken, font_taken, shadow_taken, fixed_taken};

use core_read::error::Refusal;
use core_read::reader::{Field, Reader, Source};
use flags::position::TextPosition;
use flags::text::{TextAlignment, TextFlagsWord};
use floats::Binary32;
use ui2d::{Color4u8, Vector2f};

// Buffer size to tilt, 16 bytes.
#[derive(Clone, Copy)]
pub struct TextHead {
    pub text_buffer_size: u16,
    pub text_length: u16,
    pub material_index: u16,
    pub font_index: u16,
    pub text_origin: TextPosition,
    pub text_alignment: TextAlignment,
    pub word: TextFlagsWord,
    pub italic_tilt: Binary32,
}

// Text offset to label offset, 32 bytes.
#[derive(Clone, Copy)]
pub struct TextFont {
    pub text_offset: u32,
    pub top_color: Color4u8,
    pub bottom_color: Color4u8,
    pub measure: Vector2f,
    pub character_space: Binary32,
    pub line_space: Binary32,
    pub label_offset: u32,
}

// Shadow translation to per-character offset, 36 bytes.
#[derive(Clone, Copy)]
pub struct TextShadow {
    pub translation: Vector2f,
    pub size: Vector2f,
    pub top_color: Color4u8,
    pub bottom_color: Color4u8,
    pub italic_tilt: Binary32,
    pub line_offset: u32,
    pub per_character_offset: u32,
}

// The three, one after the other.
#[derive(Clone, Copy)]
pub struct TextFixed {
    pub head: TextHead,
    pub font: TextFont,
    pub shadow: TextShadow,
}

impl Field for TextHead {
    ghost taken = { head_taken };

    const WIDTH: usize = 16;

    ghost WIDTH = { 16 };

    #[tactic(auto, unfolding(crate::specs::Fixed::head_taken, core_read::specs::Taken::number_taken))]
    fn fields<'a, 's>(r: &'s mut Reader<'a>) -> Result<TextHead, Refusal> {
        let text_buffer_size = r.number()?;
        let text_length = r.number()?;
        let material_index = r.number()?;
        let font_index = r.number()?;
        let text_origin = TextPosition::from(r.number::<u8>()?);
        let text_alignment = TextAlignment::from(r.number::<u8>()?);
        let word = TextFlagsWord::from(r.number::<u16>()?);
        let italic_tilt = Binary32 { bits: r.number()? };
        Ok(TextHead {
            text_buffer_size,
            text_length,
            material_index,
            font_index,
            text_origin,
            text_alignment,
            word,
            italic_tilt,
        })
    }

    fn at<'a>(source: Source<'a>, at: usize) -> TextHead {
        TextHead {
            text_buffer_size: source.number_at(at),
            text_length: source.number_at(at + 2),
            material_index: source.number_at(at + 4),
            font_index: source.number_at(at + 6),
            text_origin: TextPosition::from(source.number_at::<u8>(at + 8)),
            text_alignment: TextAlignment::from(source.number_at::<u8>(at + 9)),
            word: TextFlagsWord::from(source.number_at::<u16>(at + 10)),
            italic_tilt: Binary32 {
                bits: source.number_at(at + 12),
            },
        }
    }
}

impl Field for TextFont {
    ghost taken = { font_taken };

    const WIDTH: usize = 32;

    ghost WIDTH = { 32 };

    #[tactic(auto, unfolding(crate::specs::Fixed::font_taken, ui2d::specs::Parts::color_taken, ui2d::specs::Parts::vector2_taken, core_read::specs::Taken::number_taken))]
    fn fields<'a, 's>(r: &'s mut Reader<'a>) -> Result<TextFont, Refusal> {
        let text_offset = r.number()?;
        let top_color = r.take()?;
        let bottom_color = r.take()?;
        let measure = r.take()?;
        let character_space = Binary32 { bits: r.number()? };
        let line_space = Binary32 { bits: r.number()? };
        let label_offset = r.number()?;
        Ok(TextFont {
            text_offset,
            top_color,
            bottom_color,
            measure,
            character_space,
            line_space,
            label_offset,
        })
    }

    fn at<'a>(source: Source<'a>, at: usize) -> TextFont {
        TextFont {
            text_offset: source.number_at(at),
            top_color: Color4u8::at(source, at + 4),
            bottom_color: Color4u8::at(source, at + 8),
            measure: Vector2f::at(source, at + 12),
            character_space: Binary32 {
                bits: source.number_at(at + 20),
            },
            line_space: Binary32 {
                bits: source.number_at(at + 24),
            },
            label_offset: source.number_at(at + 28),
        }
    }
}

impl Field for TextShadow {
    ghost taken = { shadow_taken };

    const WIDTH: usize = 36;

    ghost WIDTH = { 36 };

    #[tactic(auto, unfolding(crate::specs::Fixed::shadow_taken, ui2d::specs::Parts::color_taken, ui2d::specs::Parts::vector2_taken, core_read::specs::Taken::number_taken))]
    fn fields<'a, 's>(r: &'s mut Reader<'a>) -> Result<TextShadow, Refusal> {
        let translation = r.take()?;
        let size = r.take()?;
        let top_color = r.take()?;
        let bottom_color = r.take()?;
        let italic_tilt = Binary32 { bits: r.number()? };
        let line_offset = r.number()?;
        let per_character_offset = r.number()?;
        Ok(TextShadow {
            translation,
            size,
            top_color,
            bottom_color,
            italic_tilt,
            line_offset,
            per_character_offset,
        })
    }

    fn at<'a>(source: Source<'a>, at: usize) -> TextShadow {
        TextShadow {
            translation: Vector2f::at(source, at),
            size: Vector2f::at(source, at + 8),
            top_color: Color4u8::at(source, at + 16),
            bottom_color: Color4u8::at(source, at + 20),
            italic_tilt: Binary32 {
                bits: source.number_at(at + 24),
            },
            line_offset: source.number_at(at + 28),
            per_character_offset: source.number_at(at + 32),
        }
    }
}

impl Field for TextFixed {
    ghost taken = { fixed_taken };

    const WIDTH: usize = 84;

    ghost WIDTH = { 84 };

    #[tactic(auto, unfolding(crate::specs::Fixed::fixed_taken, crate::specs::Fixed::font_taken, crate::specs::Fixed::shadow_taken, ui2d::specs::Parts::color_taken, ui2d::specs::Parts::vector2_taken, core_read::specs::Taken::number_taken))]
    fn fields<'a, 's>(r: &'s mut Reader<'a>) -> Result<TextFixed, Refusal> {
        let head = r.take()?;
        let font = r.take()?;
        let shadow = r.take()?;
        Ok(TextFixed { head, font, shadow })
    }

    fn at<'a>(source: Source<'a>, at: usize) -> TextFixed {
        TextFixed {
            head: TextHead::at(source, at),
            font: TextFont::at(source, at + 16),
            shadow: TextShadow::at(source, at + 48),
        }
    }
}
