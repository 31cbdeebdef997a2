// The alignment pane: what is read and written of it, and its body calls.
#![tactic(auto)]

pub mod body;

pub use alignment_fields::{AlignmentPane, blank_alignment};
pub use body::{parse, write};
