// The words that each kind but the text box has beyond the base.
#![tactic(auto)]

pub mod ali1;
pub mod pic1;
pub mod wnd1;
