// The body of a pane of any kind, measured or read.
#![tactic(auto)]

pub mod body;
