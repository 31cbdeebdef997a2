// The checks of a base pane.
#![tactic(auto)]

pub mod checks;
