// Limits of document 01, written into a section and read back in both byte orders: one line of answer each.
#![tactic(auto)]

mod put;
mod records;
mod shown;

use crate::put::{print_figure, print_named, print_refusal};
use core_read::cursor::ByteOrder;
use core_read::error::Refusal;
use core_read::reader::Source;
use std::io;
use strip::kind::Kind;
use strip::lists::{Content, Lists};
use strip::read::Section;
use strip::record::Record;

// ---- reading

fn print_read(rt: &impl Print, answer: Result<Section, Refusal>, r: Record) -> io::Result<()> {
    match answer {
        Ok(Section::Pane { end, next, reach }) => {
            print_named(rt, ", read: pane", end)?;
            print_figure(rt, next)?;
            print_named(rt, ", reach", reach)?;
            shown::show(rt, r)
        }
        Ok(Section::Passed { next: _ }) => print!(rt; ", passed"),
        Ok(Section::End) => print!(rt; ", end"),
        Err(_) => print!(rt; ", refused"),
    }
}

// What the section at place 0 is measured as, with no list lent: the three places that the read has told, again.
fn print_measured(rt: &impl Print, answer: Result<Section, Refusal>) -> io::Result<()> {
    match answer {
        Ok(Section::Pane { end, next, reach }) => {
            print_named(rt, ", measured", end)?;
            print_figure(rt, next)?;
            print_figure(rt, reach)
        }
        Ok(Section::Passed { next: _ }) => print!(rt; ", measured: passed"),
        Ok(Section::End) => print!(rt; ", measured: end"),
        Err(_) => print!(rt; ", measured: refused"),
    }
}

// What the section at place 0 is read as, with lists that hold something else.
fn read_back(rt: &impl Print, source: Source) -> io::Result<()> {
    let mut quads = [7u32; 2040];
    let mut units = [7u16; 32767];
    let mut lines = [7u32; 510];
    let mut frames = [7u16; 510];
    let mut lists = Lists {
        quads: &mut quads,
        units: &mut units,
        lines: &mut lines,
        frames: &mut frames,
    };
    let read = strip::read::read_section(source, 0, &mut lists);
    print_read(rt, read.answer, read.record)?;
    let measured = strip::measure::measure_section(source, 0);
    print_measured(rt, measured.answer)
}

// ---- writing

// The four bytes of the size of the section at place 0, as they stand.
fn print_size(rt: &impl Print, out: &[u8]) -> io::Result<()> {
    match out {
        [_, _, _, _, a, b, c, d, ..] => {
            print_named(rt, ", size", *a as usize)?;
            print_figure(rt, *b as usize)?;
            print_figure(rt, *c as usize)?;
            print_figure(rt, *d as usize)
        }
        _ => Ok(()),
    }
}

fn print_end(rt: &impl Print, order: ByteOrder, out: &[u8], end: usize) -> io::Result<()> {
    print_named(rt, " end", end)?;
    print_size(rt, out)?;
    if end <= out.len() {
        let data = &out[..end];
        read_back(rt, Source { order, data })?;
    }
    Ok(())
}

fn print_written(
    rt: &impl Print,
    order: ByteOrder,
    out: &[u8],
    written: Result<usize, Refusal>,
) -> io::Result<()> {
    match written {
        Ok(end) => print_end(rt, order, out, end),
        Err(why) => {
            print!(rt; " ")?;
            print_refusal(rt, why)
        }
    }
}

// ---- a line: what it is, and a section

const NOTHING: Content<'static> = Content {
    quads: &[],
    units: &[],
    lines: &[],
    frames: &[],
    label: b"",
};

// Prints the lines of one byte order.
#[derive(Drop)]
struct Report<'a, R> {
    rt: &'a R,
    order: ByteOrder,
}

impl<R: Print> Report<'_, R> {
    // Of a record, into this output.
    fn line_into(&self, what: &str, r: Record, content: Content, out: &mut [u8]) -> io::Result<()> {
        let rt = self.rt;
        let order = self.order;
        print!(rt; "{what}:")?;
        let written = strip::write::write_section(order, r, content, out, 0);
        print_written(rt, order, out, written)?;
        println!(rt; "")
    }

    // Of a record, into an output that the longest text box fills.
    fn line(&self, what: &str, r: Record, content: Content) -> io::Result<()> {
        let mut out = [9u8; 67752];
        self.line_into(what, r, content, &mut out)
    }

    // Of a blank record.
    fn blank<'x>(
        &self,
        what: &str,
        kind: Kind,
        reserve0: u8,
        quads: &'x [u32],
        frames: &'x [u16],
    ) -> io::Result<()> {
        let r = records::of_kind(kind, reserve0);
        self.line(
            what,
            r,
            Content {
                quads,
                frames,
                ..NOTHING
            },
        )
    }

    // Of a text box with this text. The text_length is 65,535, which is that of 32,767 units.
    fn text(&self, what: &str, units: &[u16]) -> io::Result<()> {
        let r = records::text_of(65_535);
        self.line(what, r, Content { units, ..NOTHING })
    }

    // ---- the lines

    fn windows(&self) -> io::Result<()> {
        let quads = [1u32; 2048];
        let frames = [1u16; 512];
        self.blank("255 frames", Kind::Wnd1, 31, &[], &frames[..510])?;
        self.blank("256 frames", Kind::Wnd1, 31, &[], &frames)?;
        self.blank("255 quads in a window", Kind::Wnd1, 31, &quads[..2040], &[])?;
        self.blank("256 quads in a window", Kind::Wnd1, 31, &quads, &[])
    }

    // Lists of pictures, a list of an alignment pane, and reserve0.
    fn pictures(&self) -> io::Result<()> {
        let quads = [1u32; 2048];
        let frames = [1u16; 512];
        self.blank(
            "255 quads in a picture",
            Kind::Pic1,
            31,
            &quads[..2040],
            &[],
        )?;
        self.blank("256 quads in a picture", Kind::Pic1, 31, &quads, &[])?;
        self.blank("9 numbers of quads", Kind::Pic1, 31, &quads[..9], &[])?;
        self.line(
            "a list that the kind lacks",
            records::alignment_pane(),
            Content {
                quads: &quads[..9],
                frames: &frames[..3],
                ..NOTHING
            },
        )?;
        self.blank("reserve0 32", Kind::Wnd1, 32, &quads[..9], &frames)
    }

    // The longest picture and the longest window.
    fn longest(&self) -> io::Result<()> {
        let quads = &[1u32; 2040];
        let frames = &[1u16; 510];
        let picture = records::picture_with(4_294_967_295);
        self.line(
            "255 quads and a shape index",
            picture,
            Content { quads, ..NOTHING },
        )?;
        let window = records::window_with(65_535);
        self.line(
            "255 quads and 255 frames",
            window,
            Content {
                quads,
                frames,
                ..NOTHING
            },
        )
    }

    // D800 is the first half of a pair.
    fn texts(&self) -> io::Result<()> {
        let mut units = [1u16; 32768];
        self.text("32767 units", &units[..32767])?;
        self.text("32768 units", &units)?;
        units[32766] = 0xD800;
        self.text("the last unit half a pair", &units[..32767])
    }

    fn tables(&self) -> io::Result<()> {
        let lines = &[1u32; 512];
        let full = Content {
            lines: &lines[..510],
            ..NOTHING
        };
        let r = records::table_with(true);
        self.line("255 lines", r, full)?;
        self.line("256 lines", r, Content { lines, ..NOTHING })?;
        self.line(
            "255 lines, flag bit 6 clear",
            records::table_with(false),
            full,
        )
    }

    fn labels(&self) -> io::Result<()> {
        let r = records::labelled();
        self.line("an empty label", r, NOTHING)?;
        self.line(
            "a NUL in a label",
            r,
            Content {
                label: b"a\0",
                ..NOTHING
            },
        )
    }

    // The longest text and line table with a label, in an output that they fill and in one that is a byte shorter.
    fn wholes(&self) -> io::Result<()> {
        let units = &[1u16; 32767];
        let lines = &[1u32; 510];
        let r = records::whole();
        let content = Content {
            units,
            lines,
            label: b"ok",
            ..NOTHING
        };
        self.line("text, label, lines and a font scale", r, content)?;
        let mut out = [9u8; 67751];
        self.line_into("the same, with a byte less of room", r, content, &mut out)
    }

    fn all(&self) -> io::Result<()> {
        self.windows()?;
        self.pictures()?;
        self.longest()?;
        self.texts()?;
        self.tables()?;
        self.labels()?;
        self.wholes()
    }
}

fn main(rt: HostRuntime) -> io::Result<()> {
    let rt = &rt;
    let little = Report {
        rt,
        order: ByteOrder::Little,
    };
    little.all()?;
    println!(rt; "big-endian:")?;
    let big = Report {
        rt,
        order: ByteOrder::Big,
    };
    big.all()
}
