// The enums and the packed fields of a pane. The flags are bools under nnbfl's names and no `bitflags`: in most of their bytes enums or a number stand beside them.
// Each `From` is written out, since no derive of std or of the kit's crates writes one from a number.
#![tactic(auto)]

mod bits;
pub mod pane;
pub mod position;
pub mod text;
pub mod window;
