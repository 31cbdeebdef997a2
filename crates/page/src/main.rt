// Walks a stored page and prints a line for each section: `pan1 "Name" at 0, 84 bytes` for a pane, `pass "usd1" at 84, 16 bytes` for letters
// of no kind, and at last `end at 100`, or `no NUMBER a b at 100: SENTENCE` where the section is refused, with the sentence of docs/REFUSALS.md.
// Between the quotes a quote and a backslash have a backslash before them, and control characters are written as `\xHH`; so are, of a name, characters
// that end a line, and of letters of no kind all bytes of 0x80 and above (crate `escapes`). So no name can make a line of its own.
// The page is standard input. It lies on the stack, and nothing is allocated. So page takes 16,777,216 bytes, and no page is longer, where the
// stack may have 25,165,824 or more (`ulimit -s 24576`), and 5,242,880 where it may have less: 8,388,608 is the default, 5,767,168 (`ulimit -s 5632`) the least. What it may have stands
// in /proc/self/limits; where that cannot be read it is taken for the default. A longer page,
// a smaller stack and an input that cannot be read are told by one line each, and nothing is walked. All lines go to standard output, and the exit status does not
// tell them apart: it is 0, and 1 only where a line cannot be written, which ends the program.
#![tactic(auto)]

mod line;
mod stack;

ghost use Rattle.std.specs.Prelude.{IfOk, ◌^◌, ◌<◌};
ghost use Rattle.io.specs.Counts.{IsPrefixLen};

use core_read::cursor::ByteOrder;
use core_read::reader::Source;
use core_write::writer::Writer;
use std::io;
use std::io::Read;
use strip::lists::Lists;
use strip::read::SectionRead;
use walk::Walk;

// ---- the page

// The line of the section that was read at this place: `line::put_line` says which.
fn print_section(rt: &impl Print, data: &[u8], place: usize, read: SectionRead) -> io::Result<()> {
    let record = read.record;
    let name = record.base.pane_name;
    let mut line = [0u8; 212];
    let mut w = Writer::of_text(&mut line, 0);
    line::put_line(&mut w, data, place, read.answer, record.kind, name);
    let end = w.place;
    rt.write_all(&line[..end])
}

// A line for each section, until the walk stays where it is: at the end, or where a section is refused.
fn print_page(rt: &impl Print, data: &[u8], lists: &mut Lists) -> io::Result<()> {
    let source = Source {
        order: ByteOrder::Little,
        data,
    };
    let mut walk = Walk::over(source, 0);
    // No `for`: the walk itself tells where it ends.
    loop {
        let place = walk.place;
        let read = walk.next(lists);
        print_section(rt, data, place, read)?;
        if walk.place <= place {
            return Ok(());
        }
    }
}

// With lists at full length.
fn page(rt: &impl Print, data: &[u8]) -> io::Result<()> {
    let mut quads = [0u32; 2040];
    let mut units = [0u16; 32767];
    let mut lines = [0u32; 510];
    let mut frames = [0u16; 510];
    let mut lists = Lists {
        quads: &mut quads,
        units: &mut units,
        lines: &mut lines,
        frames: &mut frames,
    };
    print_page(rt, data, &mut lists)
}

// ---- standard input

// Reads until bytes are full or the input ends, and answers how many it has filled.
fn read_page(from: &mut impl Read, bytes: &mut [u8]) -> io::Result<usize>
    ensures { IfOk result (λ n. IsPrefixLen n bytes.new) }
{
    let mut end = 0;
    // No `for`: a read gives as many bytes as it likes, so there is nothing to count but the room that is left.
    while end < bytes.len() {
        let n = from.read(&mut bytes[end..])?;
        if n == 0 {
            break;
        }
        end += n;
    }
    Ok(end)
}

// Reads the page and prints its lines, or why there are none. A page that fills bytes is too long.
fn run(rt: &(impl io::Input + Print), bytes: &mut [u8], too_long: &str) -> io::Result<()> {
    let mut from = rt.reader();
    match read_page(&mut from, bytes) {
        Err(_) => rt.println("standard input cannot be read"),
        Ok(n) if n < bytes.len() => page(rt, &bytes[..n]),
        Ok(_) => rt.println(too_long),
    }
}

// ---- the room on the stack

// The longest page by document 01 (check 1).
const LARGE_PAGE: usize = 16777216;

// The longest that is taken where there is no room for that.
const SMALL_PAGE: usize = 5242880;

// An array has a byte more than the page, to tell a longer one.
const LARGE_ARRAY: usize = LARGE_PAGE + 1;

const SMALL_ARRAY: usize = SMALL_PAGE + 1;

// What the stack must be allowed to have for a large page: room for all that arguments and environment can take, 6,291,456 bytes, and 2,097,151 more.
const LARGE_STACK: u64 = 25165824;

// The same for a small page, with 524,287 bytes for all else. Arguments and environment can take a quarter of a stack: from 7,340,032 bytes on, so by default too,
// there is room for all of that, and below it for at least some 400,000 bytes: with more of them the program ends with no line.
const SMALL_STACK: u64 = 5767168;

// Takes a page of fewer than N bytes. Not inlined, so that the array is on the stack only once this is called: in main the large array would lie there
// before the test, and end the program where there is no room. The gate would see it, since it runs page with the default stack; it does not try the large array.
#[inline(never)]
fn run_in<const N: usize>(rt: &(impl io::Input + Print), too_long: &str) -> io::Result<()>
    requires { N < 2 ^ 63 }
{
    let mut bytes = [0u8; N];
    run(rt, &mut bytes, too_long)
}

fn main(rt: HostRuntime) -> io::Result<()> {
    let limit = stack::limit(&rt);
    if LARGE_STACK <= limit {
        run_in::<LARGE_ARRAY>(&rt, "more than 16777216 bytes: no page is longer")
    } else if SMALL_STACK <= limit {
        run_in::<SMALL_ARRAY>(
            &rt,
            "more than 5242880 bytes: a page lies on the stack, which may have less than 25165824 bytes here; with ulimit -s 24576 or more, page takes 16777216",
        )
    } else {
        rt.println(
            "no page is read: it would lie on the stack, which may have less than 5767168 bytes here; with ulimit -s 5632 or more, page takes 5242880",
        )
    }
}
