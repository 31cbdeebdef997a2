// What the types say of a record: the laws on words coming back ask it. The functions do nothing; their contracts do.
ghost use Rattle.std.specs.Prelude.{◌<◌};
ghost use Rattle.strip_records.specs.Typed.{Below};
ghost use Rattle.flat_records.specs.Typed.{TypedLines, TypedWords};

use pane_read::Pane;
use strip_records::record::Record;
use text_box_read::TextBoxPane;
use window_read::WindowPane;

fn typed_bytes(list: &[u8])
    ensures { Below 256 list.now }
{}

fn typed_byte(v: u8)
    ensures { v < 256 }
{}

fn typed_lines(x: Option<u8>)
    ensures { TypedLines x }
{
    match x {
        None => {}
        Some(count) => typed_byte(count),
    }
}

fn typed_names(b: Pane)
    ensures { Below 256 b.pane_name.bytes × Below 256 b.user_name.bytes }
{
    typed_bytes(&b.pane_name.bytes);
    typed_bytes(&b.user_name.bytes);
}

fn typed_table(x: TextBoxPane)
    ensures { TypedLines x.line_table }
{
    typed_lines(x.line_table);
}

fn typed_counts(x: WindowPane)
    ensures { (x.frame_count < 256) × (x.content.quad_count < 256) }
{
    typed_byte(x.frame_count);
    typed_byte(x.content.quad_count);
}

// Every record is one that TypedWords describes.
pub fn typed(r: Record)
    ensures { TypedWords r }
{
    pane_read::typed_pane(r.base);
    picture_fields::typed_picture(r.picture);
    text_box_read::typed_text_box(r.text_box);
    window_read::typed_window(r.window);
    alignment_fields::typed_alignment(r.alignment);
    typed_names(r.base);
    typed_table(r.text_box);
    typed_counts(r.window);
}
