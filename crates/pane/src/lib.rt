// The base pane: what is read and written of it, its checks and its body calls.
#![tactic(auto)]

pub mod body;

ghost use Rattle.core_write.specs.Puts.{HasRoom, Puts};
ghost use Rattle.pane_read.specs.Pane.{encode_head, encode_transform, encode_pane, Sound};

pub use body::{parse, write};
use core_write::writer::Writer;
pub use pane_read::{Pane, blank_pane};
use ui2d::{put_vector2, put_vector3};

// Flags, position, alpha, flag_ex and the names, 36 bytes.
fn put_head<'a, 's>(w: &'s mut Writer<'a>, b: Pane)
    requires { Sound b × HasRoom w.old 36 }
    ensures { Puts w.old w.new 36 (λ order. encode_head order b) }
{
    w.put_number(u8::from(b.pane_flags));
    w.put_number(u8::from(b.position));
    w.put_number(b.alpha);
    w.put_number(u8::from(b.flag_ex));
    w.put_fixed_string(b.pane_name);
    w.put_fixed_string(b.user_name);
}

// Translation, rotation, scale and size, 40 bytes.
fn put_transform<'a, 's>(w: &'s mut Writer<'a>, b: Pane)
    requires { HasRoom w.old 40 }
    ensures { Puts w.old w.new 40 (λ order. encode_transform order b) }
{
    put_vector3(w, b.translation);
    put_vector3(w, b.rotation);
    put_vector2(w, b.scale);
    put_vector2(w, b.size);
}

// The pane, 76 bytes. By a writer of its own: a compiler keeps its place and output in registers, and reads those of a lent one anew for each byte.
pub fn put_pane<'a, 's>(w: &'s mut Writer<'a>, b: Pane)
    requires { Sound b × HasRoom w.old 76 }
    ensures { Puts w.old w.new 76 (λ order. encode_pane order b) }
{
    let mut own = Writer {
        order: w.order,
        out: &mut *w.out,
        place: w.place,
    };
    put_head(&mut own, b);
    put_transform(&mut own, b);
    w.place = own.place;
}
