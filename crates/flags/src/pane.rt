// The flags of every pane.
ghost use Rattle.std.specs.Prelude.{◌≡◌};
ghost use Rattle.flags.specs.Fields.{pane_flags_of, pane_flags_number, flag_ex_of, flag_ex_number};

use crate::bits::packed;

// A byte: one bit each in field order.
#[derive(Clone, Copy, Debug, PartialEq, Eq)]
pub struct PaneFlags {
    pub is_visible: bool,
    pub influenced_alpha: bool,
    pub location_adjust: bool,
    pub user_allocated: bool,
    pub is_global_matrix_dirty: bool,
    pub is_srt_matrix_user: bool,
    pub is_global_matrix_user: bool,
    pub is_constant_buffer_ready: bool,
}

impl From<u8> for PaneFlags {
    ghost from_gives = { λ raw flags. flags ≡ pane_flags_of raw };

    fn from(raw: u8) -> PaneFlags {
        PaneFlags {
            is_visible: raw % 2 == 1,
            influenced_alpha: raw / 2 % 2 == 1,
            location_adjust: raw / 4 % 2 == 1,
            user_allocated: raw / 8 % 2 == 1,
            is_global_matrix_dirty: raw / 16 % 2 == 1,
            is_srt_matrix_user: raw / 32 % 2 == 1,
            is_global_matrix_user: raw / 64 % 2 == 1,
            is_constant_buffer_ready: raw / 128 % 2 == 1,
        }
    }
}

impl From<PaneFlags> for u8 {
    ghost from_gives = { λ flags raw. raw ≡ pane_flags_number flags };

    fn from(flags: PaneFlags) -> u8 {
        packed(&[
            flags.is_visible,
            flags.influenced_alpha,
            flags.location_adjust,
            flags.user_allocated,
            flags.is_global_matrix_dirty,
            flags.is_srt_matrix_user,
            flags.is_global_matrix_user,
            flags.is_constant_buffer_ready,
        ]) as u8
    }
}

// A byte: three bits, then reserve0 in five.
#[derive(Clone, Copy, Debug, PartialEq, Eq)]
pub struct PaneFlagsEx {
    pub is_no_scale_by_parts: bool,
    pub is_scale_size_by_parts_root: bool,
    pub is_ext_user_data: bool,
    pub reserve0: u8,
}

impl From<u8> for PaneFlagsEx {
    ghost from_gives = { λ raw flags. flags ≡ flag_ex_of raw };

    fn from(raw: u8) -> PaneFlagsEx {
        PaneFlagsEx {
            is_no_scale_by_parts: raw % 2 == 1,
            is_scale_size_by_parts_root: raw / 2 % 2 == 1,
            is_ext_user_data: raw / 4 % 2 == 1,
            reserve0: raw / 8,
        }
    }
}

impl From<PaneFlagsEx> for u8 {
    ghost from_gives = { λ flags raw. raw ≡ flag_ex_number flags };

    // Of a reserve0 above 31 the low five bits are written.
    #[tactic(auto, using(crate::proofs::Packed::flag_from), unfolding(crate::specs::Fields::flag_ex_number, crate::specs::Packed::pack))]
    fn from(flags: PaneFlagsEx) -> u8 {
        u8::from(flags.is_no_scale_by_parts)
            + 2 * u8::from(flags.is_scale_size_by_parts_root)
            + 4 * u8::from(flags.is_ext_user_data)
            + 8 * (flags.reserve0 % 32)
    }
}
