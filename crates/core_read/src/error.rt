// Why a call is refused: the rows of document 01's table and those that document 02 adds, each with its figures.
ghost use Rattle.std.specs.Prelude.{◌≡◌};
ghost use Rattle.core_read.specs.Refusals.{number_of, list_number, text_number, figure_a, figure_b};

// A list of numbers that a read fills, or that a write is handed.
#[derive(Clone, Copy)]
pub enum NumberList {
    Quads,
    Units,
    Lines,
    Frames,
}

// A text that has to be well-formed.
#[derive(Clone, Copy)]
pub enum CheckedText {
    PaneName,
    UserName,
    Label,
}

#[derive(Clone, Copy)]
pub enum Refusal {
    TooLong { length: usize },
    BadPlace { place: usize },
    ShortList { list: NumberList, need: usize },
    UnexpectedEof { offset: usize, requested: usize },
    NoNul { place: usize },
    PerCharacter { value: usize },
    IllFormedUtf8 { place: usize, which: CheckedText },
    SectionSize { place: usize, size: usize },
    BadName { which: CheckedText },
    Reserve0 { value: usize },
    ListLength { list: NumberList, length: usize },
    BadFlip { frame: usize, flip: usize },
    TextLength { units: usize, text_length: usize },
    IllFormedUtf16 { units: usize },
    NoLineBit,
    OutputEnd { end: usize, length: usize },
    PastSection { reach: usize, end: usize },
}

impl From<NumberList> for usize {
    ghost from_gives = { λ list n. n ≡ list_number list };

    fn from(list: NumberList) -> usize {
        match list {
            NumberList::Quads => 1,
            NumberList::Units => 2,
            NumberList::Lines => 3,
            NumberList::Frames => 4,
        }
    }
}

impl From<CheckedText> for usize {
    ghost from_gives = { λ text n. n ≡ text_number text };

    fn from(text: CheckedText) -> usize {
        match text {
            CheckedText::PaneName => 1,
            CheckedText::UserName => 2,
            CheckedText::Label => 3,
        }
    }
}

impl Refusal {
    // Document 01's number, or document 02's. No derive gives it: the cases have figures, and 17 and 18 are none of them.
    pub fn number(self) -> usize
        ensures { result ≡ number_of self }
    {
        match self {
            Refusal::TooLong { length: _ } => 1,
            Refusal::BadPlace { place: _ } => 2,
            Refusal::ShortList { list: _, need: _ } => 3,
            Refusal::UnexpectedEof {
                offset: _,
                requested: _,
            } => 4,
            Refusal::NoNul { place: _ } => 5,
            Refusal::PerCharacter { value: _ } => 6,
            Refusal::IllFormedUtf8 { place: _, which: _ } => 7,
            Refusal::SectionSize { place: _, size: _ } => 8,
            Refusal::BadName { which: _ } => 9,
            Refusal::Reserve0 { value: _ } => 10,
            Refusal::ListLength { list: _, length: _ } => 11,
            Refusal::BadFlip { frame: _, flip: _ } => 12,
            Refusal::TextLength {
                units: _,
                text_length: _,
            } => 13,
            Refusal::IllFormedUtf16 { units: _ } => 14,
            Refusal::NoLineBit => 15,
            Refusal::OutputEnd { end: _, length: _ } => 16,
            Refusal::PastSection { reach: _, end: _ } => 19,
        }
    }

    // Its figure a.
    pub fn a(self) -> usize
        ensures { result ≡ figure_a self }
    {
        match self {
            Refusal::TooLong { length } => length,
            Refusal::BadPlace { place } => place,
            Refusal::ShortList { list, need: _ } => list.into(),
            Refusal::UnexpectedEof {
                offset,
                requested: _,
            } => offset,
            Refusal::NoNul { place } => place,
            Refusal::PerCharacter { value } => value,
            Refusal::IllFormedUtf8 { place, which: _ } => place,
            Refusal::SectionSize { place, size: _ } => place,
            Refusal::BadName { which } => which.into(),
            Refusal::Reserve0 { value } => value,
            Refusal::ListLength { list, length: _ } => list.into(),
            Refusal::BadFlip { frame, flip: _ } => frame,
            Refusal::TextLength {
                units,
                text_length: _,
            } => units,
            Refusal::IllFormedUtf16 { units } => units,
            Refusal::NoLineBit => 0,
            Refusal::OutputEnd { end, length: _ } => end,
            Refusal::PastSection { reach, end: _ } => reach,
        }
    }

    // Its figure b.
    pub fn b(self) -> usize
        ensures { result ≡ figure_b self }
    {
        match self {
            Refusal::TooLong { length: _ } => 0,
            Refusal::BadPlace { place: _ } => 0,
            Refusal::ShortList { list: _, need } => need,
            Refusal::UnexpectedEof {
                offset: _,
                requested,
            } => requested,
            Refusal::NoNul { place: _ } => 0,
            Refusal::PerCharacter { value: _ } => 0,
            Refusal::IllFormedUtf8 { place: _, which } => which.into(),
            Refusal::SectionSize { place: _, size } => size,
            Refusal::BadName { which: _ } => 0,
            Refusal::Reserve0 { value: _ } => 0,
            Refusal::ListLength { list: _, length } => length,
            Refusal::BadFlip { frame: _, flip } => flip,
            Refusal::TextLength {
                units: _,
                text_length,
            } => text_length,
            Refusal::IllFormedUtf16 { units: _ } => 0,
            Refusal::NoLineBit => 0,
            Refusal::OutputEnd { end: _, length } => length,
            Refusal::PastSection { reach: _, end } => end,
        }
    }
}
