// The parts of a text box that offsets point to: text, label and line table.
#![tactic(auto)]

pub mod parts;
pub mod units;

// Its units are a lent list.
#[derive(Clone, Copy)]
pub enum Text {
    Absent,
    Present,
}

// Where a part stands in the strip, as a label that was read; on a write a label's bytes are lent.
#[derive(Clone, Copy)]
pub struct Span {
    pub place: usize,
    pub length: usize,
}
