// What a text box has beyond the base, written.
#![tactic(auto)]

pub mod fixed;
pub mod write;
