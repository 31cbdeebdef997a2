// What is shown of a record that was read: its frames; and where they are there, a shape index, the parts of a text box, a font scale, a content with a material.
use crate::put::{print_figure, print_named};
use std::io;
use strip::filled;
use strip::record::Record;
use text_box::{FontMeasure, Span, Text};

fn show_picture(rt: &impl Print, r: Record) -> io::Result<()> {
    match r.picture.shape_info_array_index {
        None => Ok(()),
        Some(index) => print_named(rt, ", shape", index as usize),
    }
}

fn show_label(rt: &impl Print, label: Option<Span>) -> io::Result<()> {
    match label {
        None => Ok(()),
        Some(Span { place, length }) => {
            print_named(rt, ", label", place)?;
            print_figure(rt, length)
        }
    }
}

fn show_measure(rt: &impl Print, measure: FontMeasure) -> io::Result<()> {
    match measure {
        FontMeasure::Size(_) => Ok(()),
        FontMeasure::Scale(_) => print!(rt; ", scale"),
    }
}

fn show_text(rt: &impl Print, r: Record, text: Text) -> io::Result<()> {
    match text {
        Text::Absent => Ok(()),
        Text::Present => print_named(rt, ", units", filled::units_filled(r)),
    }
}

fn show_table(rt: &impl Print, table: Option<u8>) -> io::Result<()> {
    match table {
        None => Ok(()),
        Some(count) => print_named(rt, ", lines", count as usize),
    }
}

fn show_text_box(rt: &impl Print, r: Record) -> io::Result<()> {
    let text_box = r.text_box;
    show_text(rt, r, text_box.text)?;
    show_label(rt, text_box.label)?;
    show_table(rt, text_box.line_table)?;
    show_measure(rt, text_box.font_measure)
}

// The quads of a content and its material, where it has one.
fn show_content(rt: &impl Print, r: Record) -> io::Result<()> {
    let content = r.window.content;
    if content.material_index != 0 {
        print_named(rt, ", content", content.quad_count as usize)?;
        return print_figure(rt, content.material_index as usize);
    }
    Ok(())
}

pub(crate) fn show(rt: &impl Print, r: Record) -> io::Result<()> {
    print_named(rt, ", frames", r.window.frame_count as usize)?;
    show_picture(rt, r)?;
    show_text_box(rt, r)?;
    show_content(rt, r)
}
