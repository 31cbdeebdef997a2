// What the calls for C and Rust answer.
#![tactic(auto)]

pub mod answers;
