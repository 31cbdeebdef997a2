// The text box: what is read and written of it beyond the base, and its body calls.
#![tactic(auto)]

pub mod body;

pub use body::{parse, write};
pub use text_box_caption::caption;
pub use text_box_parts::{Span, Text};
pub use text_box_read::{FontMeasure, TextBoxPane, blank_text_box};
