// The window: what is read and written of it beyond the base, and its body calls.
#![tactic(auto)]

pub mod body;

pub use body::{parse, write};
pub use window_read::{WindowContent, WindowPane, blank_window};
