// The section read: with lists lent, or measured, with none.
#![tactic(auto)]

pub mod measure;
pub mod read;
