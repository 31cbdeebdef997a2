// The reads of the static library: a section or a body read into the words of a record.
#![tactic(auto)]

mod bodies;
mod deliver;
pub mod reads;
mod sections;
