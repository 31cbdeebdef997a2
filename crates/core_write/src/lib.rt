// Numbers, strings and lists of numbers put into lent bytes.
#![tactic(auto)]

pub mod writer;
