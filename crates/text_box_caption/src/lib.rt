// The label of a text box as a part of the strip, and the caption.
#![tactic(auto)]

pub mod caption;
