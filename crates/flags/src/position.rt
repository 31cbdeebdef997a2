// Where a pane and a text stand.
ghost use Rattle.std.specs.Prelude.{◌≡◌};
ghost use Rattle.flags.specs.Enums.{horizontal_of, horizontal_number, vertical_of, vertical_number};
ghost use Rattle.flags.specs.Fields.{position_of, position_number, origin_of, origin_number};

#[derive(Clone, Copy, Debug, PartialEq, Eq)]
pub enum HorizontalPosition {
    Center = 0,
    Left = 1,
    Right = 2,
}

impl From<u8> for HorizontalPosition {
    ghost from_gives = { λ n x. x ≡ horizontal_of n };

    // An unknown number reads as the first.
    fn from(n: u8) -> HorizontalPosition {
        match n {
            1 => HorizontalPosition::Left,
            2 => HorizontalPosition::Right,
            _ => HorizontalPosition::Center,
        }
    }
}

impl From<HorizontalPosition> for u8 {
    ghost from_gives = { λ x n. n ≡ horizontal_number x };

    fn from(x: HorizontalPosition) -> u8 {
        x as u8
    }
}

// The numbers are HorizontalPosition's, the names are not: nnbfl has both types, and with one a caller could swap an x and a y.
#[derive(Clone, Copy, Debug, PartialEq, Eq)]
pub enum VerticalPosition {
    Center = 0,
    Top = 1,
    Bottom = 2,
}

impl From<u8> for VerticalPosition {
    ghost from_gives = { λ n x. x ≡ vertical_of n };

    // An unknown number reads as the first.
    fn from(n: u8) -> VerticalPosition {
        match n {
            1 => VerticalPosition::Top,
            2 => VerticalPosition::Bottom,
            _ => VerticalPosition::Center,
        }
    }
}

impl From<VerticalPosition> for u8 {
    ghost from_gives = { λ x n. n ≡ vertical_number x };

    fn from(x: VerticalPosition) -> u8 {
        x as u8
    }
}

// A byte: x bits 0-1, y 2-3, parent x 4-5, parent y 6-7.
#[derive(Clone, Copy, Debug, PartialEq, Eq)]
pub struct BflytPosition {
    pub position_x: HorizontalPosition,
    pub position_y: VerticalPosition,
    pub parent_relative_position_x: HorizontalPosition,
    pub parent_relative_position_y: VerticalPosition,
}

impl From<u8> for BflytPosition {
    ghost from_gives = { λ raw position. position ≡ position_of raw };

    fn from(raw: u8) -> BflytPosition {
        BflytPosition {
            position_x: HorizontalPosition::from(raw % 4),
            position_y: VerticalPosition::from(raw / 4 % 4),
            parent_relative_position_x: HorizontalPosition::from(raw / 16 % 4),
            parent_relative_position_y: VerticalPosition::from(raw / 64 % 4),
        }
    }
}

impl From<BflytPosition> for u8 {
    ghost from_gives = { λ position raw. raw ≡ position_number position };

    #[tactic(auto, using(crate::proofs::Enums::horizontal_le, crate::proofs::Enums::vertical_le), unfolding(crate::specs::Fields::position_number, crate::specs::Packed::pack))]
    fn from(position: BflytPosition) -> u8 {
        u8::from(position.position_x)
            + 4 * u8::from(position.position_y)
            + 16 * u8::from(position.parent_relative_position_x)
            + 64 * u8::from(position.parent_relative_position_y)
    }
}

// A text's origin, a byte: vertical bits 0-1, horizontal 2-3, the rest dropped.
#[derive(Clone, Copy, Debug, PartialEq, Eq)]
pub struct TextPosition {
    pub horizontal: HorizontalPosition,
    pub vertical: VerticalPosition,
}

impl From<u8> for TextPosition {
    ghost from_gives = { λ raw origin. origin ≡ origin_of raw };

    fn from(raw: u8) -> TextPosition {
        TextPosition {
            horizontal: HorizontalPosition::from(raw / 4 % 4),
            vertical: VerticalPosition::from(raw % 4),
        }
    }
}

impl From<TextPosition> for u8 {
    ghost from_gives = { λ origin raw. raw ≡ origin_number origin };

    #[tactic(auto, using(crate::proofs::Enums::horizontal_le, crate::proofs::Enums::vertical_le), unfolding(crate::specs::Fields::origin_number, crate::specs::Packed::pack))]
    fn from(origin: TextPosition) -> u8 {
        u8::from(origin.vertical) + 4 * u8::from(origin.horizontal)
    }
}
