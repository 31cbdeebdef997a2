// The words of a record tested; its label and its caption; how many numbers of each list it counts.
#![tactic(auto)]

pub mod counts;
pub mod parts;
