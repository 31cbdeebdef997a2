// The strip: sections in a row, each four letters, a size, and a pane's body padded to a multiple of 4.
#![tactic(auto)]

pub mod record;

pub use strip_read::{measure, read};
pub use strip_records::{filled, kind, lists};
pub use strip_write::write;
