// The checks that calls share, and what calls answer.
#![tactic(auto)]

pub mod checks;
