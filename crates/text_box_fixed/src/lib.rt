// The 84 fixed bytes that a text box has after the base, read.
#![tactic(auto)]

pub mod fixed;
