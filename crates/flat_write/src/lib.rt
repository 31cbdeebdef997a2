// A record's words written by kind: a section, and a body.
#![tactic(auto)]

pub mod bodies;
pub mod sections;
