// What a line of hexadecimal digits prints: the section at place 0 of its bytes is read, and the answer put into lent bytes.
ghost use Rattle.std.specs.Prelude.{◌≡◌, ◌+◌, ◌≤◌, length};
ghost use Rattle.core_read.specs.Bytes.{Room, Put};
ghost use Rattle.core_write.specs.Puts.{HasRoom, PutsText};
ghost use Rattle.lines.specs.Answered.{answer_of, answer_to};

use core_read::cursor::ByteOrder;
use core_read::error::Refusal;
use core_read::reader::Source;
use core_write::writer::Writer;
use digits::Line;
use strip::lists::Lists;
use strip::read::Section;

// Reads the section at place 0, with lists at full length.
fn section_answer(data: &[u8]) -> Result<Section, Refusal>
    ensures { result ≡ answer_of «data».now }
{
    let source = Source {
        order: ByteOrder::Little,
        data,
    };
    let mut quads = [0u32; 2040];
    let mut units = [0u16; 32767];
    let mut lines = [0u32; 510];
    let mut frames = [0u16; 510];
    let mut lists = Lists {
        quads: &mut quads,
        units: &mut units,
        lines: &mut lines,
        frames: &mut frames,
    };
    strip::read::read_section(source, 0, &mut lists).answer
}

// The answer to a line that has ended, from the bytes that its digits have filled: its own line, at most 66 bytes.
fn put_answered<'a, 's>(w: &'s mut Writer<'a>, bytes: &[u8], line: Line)
    requires { HasRoom w.old 66 }
    ensures put { PutsText w.old w.new (answer_to bytes.now line) }
    ensures upper_bound { w.new.place ≤ w.old.place + 66 }
{
    let half = line.digits / 2;
    if digits::spells(line, bytes.len()) {
        let answer = section_answer(&bytes[..half]);
        crate::answer_line(w, answer);
    } else {
        crate::bad_line(w);
    }
}

// The same, at the start of lent bytes, and how many it is: a step of `program::print_all`.
pub fn line_answered(bytes: &[u8], line: Line, out: &mut [u8]) -> usize
    requires { Room out.old 0 66 }
    ensures put { Put out.old 0 (length (answer_to bytes.now line)) (answer_to bytes.now line) result out.new }
    ensures upper_bound { result ≤ 66 }
{
    let mut w = Writer::of_text(out, 0);
    put_answered(&mut w, bytes, line);
    w.place
}
