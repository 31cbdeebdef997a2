// A pane of any kind, and what the types say of one with its lists and label.
ghost use Rattle.std.specs.Prelude.{◌^◌};
ghost use Rattle.strip_records.specs.Held.{handed};
ghost use Rattle.strip_records.specs.Typed.{Below, Typed, TypedRecord};

use strip_records::lists::Content;
pub use strip_records::record::{Record, blank_record};

fn typed_record(r: Record)
    ensures { TypedRecord r }
{
    pane_read::typed_pane(r.base);
    picture_fields::typed_picture(r.picture);
    text_box_read::typed_text_box(r.text_box);
    window_read::typed_window(r.window);
    alignment_fields::typed_alignment(r.alignment);
}

// Every number of a list fits its type. There is one function for each of the three types: a generic one would have to be told this of every `Number`.
fn typed_u32s(list: &[u32])
    ensures { Below (256 ^ 4) list.now }
{}

fn typed_u16s(list: &[u16])
    ensures { Below (256 ^ 2) list.now }
{}

fn typed_u8s(list: &[u8])
    ensures { Below 256 list.now }
{}

// Every record with its lists and label is one that Typed describes.
pub fn typed(r: Record, content: Content)
    ensures { Typed (handed r content.entry) }
{
    typed_record(r);
    typed_u32s(content.quads);
    typed_u16s(content.units);
    typed_u32s(content.lines);
    typed_u16s(content.frames);
    typed_u8s(content.label);
}
