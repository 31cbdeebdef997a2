// The alignment and the flags of a text box.
ghost use Rattle.std.specs.Prelude.{◌≡◌};
ghost use Rattle.flags.specs.Enums.{alignment_of, alignment_number, measure_of, measure_flag};
ghost use Rattle.flags.specs.Fields.{text_flags_of, text_flags_number};

use crate::bits::packed;

#[derive(Clone, Copy, Debug, PartialEq, Eq)]
pub enum TextAlignment {
    Synchronous = 0,
    Left = 1,
    Center = 2,
    Right = 3,
}

impl From<u8> for TextAlignment {
    ghost from_gives = { λ n x. x ≡ alignment_of n };

    // An unknown number reads as Right.
    fn from(n: u8) -> TextAlignment {
        match n {
            0 => TextAlignment::Synchronous,
            1 => TextAlignment::Left,
            2 => TextAlignment::Center,
            _ => TextAlignment::Right,
        }
    }
}

impl From<TextAlignment> for u8 {
    ghost from_gives = { λ x n. n ≡ alignment_number x };

    fn from(x: TextAlignment) -> u8 {
        x as u8
    }
}

// What the two floats of the font measure are.
#[derive(Clone, Copy, Debug, PartialEq, Eq)]
pub enum FontMeasureKind {
    Size,
    Scale,
}

impl From<bool> for FontMeasureKind {
    ghost from_gives = { λ is_keeping_font_scale x. x ≡ measure_of is_keeping_font_scale };

    fn from(is_keeping_font_scale: bool) -> FontMeasureKind {
        if is_keeping_font_scale {
            FontMeasureKind::Scale
        } else {
            FontMeasureKind::Size
        }
    }
}

impl From<FontMeasureKind> for bool {
    ghost from_gives = { λ x is_keeping_font_scale. is_keeping_font_scale ≡ measure_flag x };

    fn from(x: FontMeasureKind) -> bool {
        x == FontMeasureKind::Scale
    }
}

// A number of two bytes: one bit each in field order, but bit 12, which is the font measure's; bit 15 dropped.
#[derive(Clone, Copy, Debug, PartialEq, Eq)]
pub struct TextPaneFlags {
    pub is_enable_shadow: bool,
    pub is_limit_glyph_count_to_length: bool,
    pub is_invisible_border: bool,
    pub is_double_border: bool,
    pub is_per_character_transform: bool,
    pub is_enable_center_ceiling: bool,
    pub is_line_transform: bool,
    pub is_default_tag_processor: bool,
    pub is_per_character_transform_split_by_char_width: bool,
    pub is_mix_shadow_alpha: bool,
    pub is_reverse: bool,
    pub is_per_character_transform_origin_to_center: bool,
    pub is_per_character_transform_fix_space: bool,
    pub is_per_character_transform_split_insert_space: bool,
}

// What that number holds: the flags, and the font measure's kind.
#[derive(Clone, Copy, Debug, PartialEq, Eq)]
pub struct TextFlagsWord {
    pub flags: TextPaneFlags,
    pub measure: FontMeasureKind,
}

impl From<u16> for TextFlagsWord {
    ghost from_gives = { λ raw word. word ≡ text_flags_of raw };

    fn from(raw: u16) -> TextFlagsWord {
        TextFlagsWord {
            flags: TextPaneFlags {
                is_enable_shadow: raw % 2 == 1,
                is_limit_glyph_count_to_length: raw / 2 % 2 == 1,
                is_invisible_border: raw / 4 % 2 == 1,
                is_double_border: raw / 8 % 2 == 1,
                is_per_character_transform: raw / 16 % 2 == 1,
                is_enable_center_ceiling: raw / 32 % 2 == 1,
                is_line_transform: raw / 64 % 2 == 1,
                is_default_tag_processor: raw / 128 % 2 == 1,
                is_per_character_transform_split_by_char_width: raw / 256 % 2 == 1,
                is_mix_shadow_alpha: raw / 512 % 2 == 1,
                is_reverse: raw / 1024 % 2 == 1,
                is_per_character_transform_origin_to_center: raw / 2048 % 2 == 1,
                is_per_character_transform_fix_space: raw / 8192 % 2 == 1,
                is_per_character_transform_split_insert_space: raw / 16384 % 2 == 1,
            },
            measure: FontMeasureKind::from(raw / 4096 % 2 == 1),
        }
    }
}

impl From<TextFlagsWord> for u16 {
    ghost from_gives = { λ word raw. raw ≡ text_flags_number word.flags word.measure };

    fn from(word: TextFlagsWord) -> u16 {
        let flags = word.flags;
        packed(&[
            flags.is_enable_shadow,
            flags.is_limit_glyph_count_to_length,
            flags.is_invisible_border,
            flags.is_double_border,
            flags.is_per_character_transform,
            flags.is_enable_center_ceiling,
            flags.is_line_transform,
            flags.is_default_tag_processor,
            flags.is_per_character_transform_split_by_char_width,
            flags.is_mix_shadow_alpha,
            flags.is_reverse,
            flags.is_per_character_transform_origin_to_center,
            bool::from(word.measure),
            flags.is_per_character_transform_fix_space,
            flags.is_per_character_transform_split_insert_space,
        ])
    }
}
