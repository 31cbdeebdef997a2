// The section write.
#![tactic(auto)]

pub mod write;
