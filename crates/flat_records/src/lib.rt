// A record as a flat run of words, as layout.rt of flat says.
#![tactic(auto)]

pub mod bounds;
pub mod records;
pub mod typed;
