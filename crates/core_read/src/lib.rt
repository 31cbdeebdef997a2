// Numbers, fixed strings and lists of numbers at a place of lent bytes, read, and the refusals.
#![tactic(auto)]

pub mod cursor;
pub mod error;
pub mod number;
pub mod reader;
pub mod signed;
pub mod text;
