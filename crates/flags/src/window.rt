// The flags of a window, and the flip of its frames.
ghost use Rattle.std.specs.Prelude.{◌≡◌};
ghost use Rattle.flags.specs.Enums.{window_kind_of, window_kind_number, flip_of, flip_number};
ghost use Rattle.flags.specs.Fields.{window_flags_of, window_flags_number};

#[derive(Clone, Copy, Debug, PartialEq, Eq)]
pub enum WindowKind {
    Around = 0,
    Horizontal = 1,
    HorizontalNoContent = 2,
}

impl From<u8> for WindowKind {
    ghost from_gives = { λ n x. x ≡ window_kind_of n };

    // An unknown number reads as the first.
    fn from(n: u8) -> WindowKind {
        match n {
            1 => WindowKind::Horizontal,
            2 => WindowKind::HorizontalNoContent,
            _ => WindowKind::Around,
        }
    }
}

impl From<WindowKind> for u8 {
    ghost from_gives = { λ x n. n ≡ window_kind_number x };

    fn from(x: WindowKind) -> u8 {
        x as u8
    }
}

#[derive(Clone, Copy, Debug, PartialEq, Eq)]
pub enum TextureFlip {
    None = 0,
    FlipU = 1,
    FlipV = 2,
    Rotate90 = 3,
    Rotate180 = 4,
    Rotate270 = 5,
}

impl From<u8> for TextureFlip {
    ghost from_gives = { λ n x. x ≡ flip_of n };

    // An unknown number reads as the first.
    fn from(n: u8) -> TextureFlip {
        match n {
            1 => TextureFlip::FlipU,
            2 => TextureFlip::FlipV,
            3 => TextureFlip::Rotate90,
            4 => TextureFlip::Rotate180,
            5 => TextureFlip::Rotate270,
            _ => TextureFlip::None,
        }
    }
}

impl From<TextureFlip> for u8 {
    ghost from_gives = { λ x n. n ≡ flip_number x };

    fn from(x: TextureFlip) -> u8 {
        x as u8
    }
}

// A byte: bits 0, 1, kind 2-3, not-draw 4, the rest dropped.
#[derive(Clone, Copy, Debug, PartialEq, Eq)]
pub struct WindowFlags {
    pub use_left_corner_material: bool,
    pub use_vertex_color_for_all_window: bool,
    pub window_kind: WindowKind,
    pub not_draw_content: bool,
}

impl From<u8> for WindowFlags {
    ghost from_gives = { λ raw flags. flags ≡ window_flags_of raw };

    fn from(raw: u8) -> WindowFlags {
        WindowFlags {
            use_left_corner_material: raw % 2 == 1,
            use_vertex_color_for_all_window: raw / 2 % 2 == 1,
            window_kind: WindowKind::from(raw / 4 % 4),
            not_draw_content: raw / 16 % 2 == 1,
        }
    }
}

impl From<WindowFlags> for u8 {
    ghost from_gives = { λ flags raw. raw ≡ window_flags_number flags };

    #[tactic(auto, using(crate::proofs::Enums::window_kind_le, crate::proofs::Packed::flag_from), unfolding(crate::specs::Fields::window_flags_number, crate::specs::Packed::pack))]
    fn from(flags: WindowFlags) -> u8 {
        u8::from(flags.use_left_corner_material)
            + 2 * u8::from(flags.use_vertex_color_for_all_window)
            + 4 * u8::from(flags.window_kind)
            + 16 * u8::from(flags.not_draw_content)
    }
}
