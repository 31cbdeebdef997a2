// The picture pane: what is read and written of it, and its body calls.
#![tactic(auto)]

pub mod body;

pub use body::{parse, write};
pub use picture_fields::{PicturePane, blank_picture};
