// What a window has beyond the base, checked and written.
#![tactic(auto)]

pub mod write;
