// The flat layout of a record, and the words of the base.
#![tactic(auto)]

pub mod base;
pub mod layout;
pub mod words;
