// The kinds of panes, a record of any of them, how many numbers of each list it counts, and the lists themselves, lent or handed in.
#![tactic(auto)]

pub mod filled;
pub mod kind;
pub mod lists;
pub mod record;
