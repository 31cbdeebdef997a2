// The words that a text box has beyond the base.
#![tactic(auto)]

pub mod txt1;
