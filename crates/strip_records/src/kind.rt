// The kinds of panes: letters, fixed length, lookup from letters.
ghost use Rattle.std.specs.Prelude.{◌≡◌};
ghost use Rattle.strip_records.specs.Kinds.{letters_of, length_of, kind_of};

#[derive(Clone, Copy)]
pub enum Kind {
    Pan1,
    Pic1,
    Txt1,
    Wnd1,
    Ali1,
}

impl Kind {
    // The letters as the number that they spell, the lowest byte first.
    pub const PAN1: u32 = 0x316E6170;

    pub const PIC1: u32 = 0x31636970;

    pub const TXT1: u32 = 0x31747874;

    pub const WND1: u32 = 0x31646E77;

    pub const ALI1: u32 = 0x31696C61;

    // The letters.
    pub fn letters(self) -> u32
        ensures { result ≡ letters_of self }
    {
        match self {
            Kind::Pan1 => Kind::PAN1,
            Kind::Pic1 => Kind::PIC1,
            Kind::Txt1 => Kind::TXT1,
            Kind::Wnd1 => Kind::WND1,
            Kind::Ali1 => Kind::ALI1,
        }
    }

    // How many bytes every body of the kind has at least.
    pub fn fixed_length(self) -> usize
        ensures { result ≡ length_of self }
    {
        match self {
            Kind::Pan1 => 76,
            Kind::Pic1 => 96,
            Kind::Txt1 => 160,
            Kind::Wnd1 => 104,
            Kind::Ali1 => 88,
        }
    }

    // The kind that has these letters, if one has. No `TryFrom`, and `letters` no `From`: a kind has two numbers, its letters and its length, and other letters are no error.
    #[tactic(auto, unfolding(crate::specs::Kinds::kind_of))]
    pub fn of_letters(n: u32) -> Option<Kind>
        ensures { result ≡ kind_of n }
    {
        match n {
            Kind::PAN1 => Some(Kind::Pan1),
            Kind::PIC1 => Some(Kind::Pic1),
            Kind::TXT1 => Some(Kind::Txt1),
            Kind::WND1 => Some(Kind::Wnd1),
            Kind::ALI1 => Some(Kind::Ali1),
            _ => None,
        }
    }
}
