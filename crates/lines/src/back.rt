// What a line of hexadecimal digits prints where each pane that is read is written back: the answer of the section at place 0, and the bytes of its section.
ghost use Rattle.std.specs.Prelude.{◌≡◌, ℕ, ◌+◌, ◌≤◌, length, replicate};
ghost use Rattle.core_read.specs.Bytes.{Room, Put};
ghost use Rattle.core_write.specs.Puts.{HasRoom, PutsText};
ghost use Rattle.strip_records.specs.Held.{held, handed};
ghost use Rattle.strip_records.specs.Whole.{Full};
ghost use Rattle.lines.specs.Answered.{full_lists};
ghost use Rattle.lines.specs.Back.{counted, written_text, back_in, back_after, back_line, back_to};

use core_read::cursor::ByteOrder;
use core_read::error::Refusal;
use core_read::reader::Source;
use core_write::writer::Writer;
use digits::Line;
use strip::filled;
use strip::lists::{Content, Lists};
use strip::read::{Section, SectionRead};
use strip::record::Record;

// A space, then the bytes of the section that was written, or the refusal of its write.
fn put_written<'a, 's>(w: &'s mut Writer<'a>, written: Result<usize, Refusal>, section: &[u8])
    requires { HasRoom w.old 65537 × (length section.now ≤ 32768) × ((end : ℕ) → written ≡ Ok end → end ≤ length section.now) }
    ensures put { PutsText w.old w.new (written_text written section.now) }
    ensures upper_bound { w.new.place ≤ w.old.place + 65537 }
{
    w.put_bytes(b" ");
    match written {
        Ok(end) => crate::put_hexadecimal(w, &section[..end]),
        Err(why) => crate::put_refusal(w, why),
    }
}

// The section of a record, written with as many numbers of each list as it counts.
fn put_back<'a, 's>(w: &'s mut Writer<'a>, r: Record, content: Content)
    requires { HasRoom w.old 65537 × Full (handed r content).lists }
    ensures put { PutsText w.old w.new (back_in (replicate 32768 0) (counted r content.entry)) }
    ensures upper_bound { w.new.place ≤ w.old.place + 65537 }
{
    let q = filled::quads_filled(r);
    let u = filled::units_filled(r);
    let l = filled::lines_filled(r);
    let f = filled::frames_filled(r);
    let content = Content {
        quads: &content.quads[..q],
        units: &content.units[..u],
        lines: &content.lines[..l],
        frames: &content.frames[..f],
        ..content
    };
    let mut section = [0u8; 32768];
    let written = strip::write::write_section(ByteOrder::Little, r, content, &mut section, 0);
    put_written(w, written, &section);
}

// After the answer of a read: a pane written back, and nothing after any other answer.
#[tactic(auto, using(core_write::proofs::Chain::puts_none), unfolding(crate::specs::Back::back_after))]
fn put_after<'a, 's>(w: &'s mut Writer<'a>, read: SectionRead, content: Content)
    requires { HasRoom w.old 65537 × Full (handed read.«record» content).lists }
    ensures put { PutsText w.old w.new (back_after read.answer (counted read.«record» content.entry)) }
    ensures upper_bound { w.new.place ≤ w.old.place + 65537 }
{
    if let Ok(Section::Pane { .. }) = read.answer {
        put_back(w, read.record, content);
    }
}

// Reads the section at place 0 into the lists that are lent.
fn put_section<'a, 's, 'l>(w: &'s mut Writer<'a>, data: &[u8], mut lists: Lists<'l>)
    requires { HasRoom w.old 65603 × (held lists ≡ full_lists) }
    ensures put { PutsText w.old w.new (back_line «data».now) }
    ensures upper_bound { w.new.place ≤ w.old.place + 65603 }
{
    let source = Source {
        order: ByteOrder::Little,
        data,
    };
    let read = strip::read::read_section(source, 0, &mut lists);
    crate::put_answer(w, read.answer);
    let label = text_box::caption::label(data, read.record.text_box.label);
    let Lists {
        quads,
        units,
        lines,
        frames,
    } = lists;
    let content = Content {
        quads,
        units,
        lines,
        frames,
        label,
    };
    put_after(w, read, content);
    w.put_bytes(b"\n");
}

// The same, with lists at full length.
fn put_line<'a, 's>(w: &'s mut Writer<'a>, data: &[u8])
    requires { HasRoom w.old 65603 }
    ensures put { PutsText w.old w.new (back_line «data».now) }
    ensures upper_bound { w.new.place ≤ w.old.place + 65603 }
{
    let mut quads = [0u32; 2040];
    let mut units = [0u16; 32767];
    let mut lines = [0u32; 510];
    let mut frames = [0u16; 510];
    let lists = Lists {
        quads: &mut quads,
        units: &mut units,
        lines: &mut lines,
        frames: &mut frames,
    };
    put_section(w, data, lists);
}

// The answer to a line that has ended, with a pane written back: its own line, at most 65,603 bytes.
fn put_written_back<'a, 's>(w: &'s mut Writer<'a>, bytes: &[u8], line: Line)
    requires { HasRoom w.old 65603 }
    ensures put { PutsText w.old w.new (back_to bytes.now line) }
    ensures upper_bound { w.new.place ≤ w.old.place + 65603 }
{
    let half = line.digits / 2;
    if digits::spells(line, bytes.len()) {
        put_line(w, &bytes[..half]);
    } else {
        crate::bad_line(w);
    }
}

// The same, at the start of lent bytes, and how many it is: a step of `program::print_all`.
pub fn line_written_back(bytes: &[u8], line: Line, out: &mut [u8]) -> usize
    requires { Room out.old 0 65603 }
    ensures put { Put out.old 0 (length (back_to bytes.now line)) (back_to bytes.now line) result out.new }
    ensures upper_bound { result ≤ 65603 }
{
    let mut w = Writer::of_text(out, 0);
    put_written_back(&mut w, bytes, line);
    w.place
}
