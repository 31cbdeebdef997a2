// What the programs read and print by lines. Here: a number's decimal digits, the answers and their lines, bytes in hexadecimal, each a step of a writer.
// In the modules: lines of digits from standard input (input), what a line prints
// (answered, and back with its pane written back), and the loop of a program that prints it (program).
#![tactic(auto)]

pub mod answered;
pub mod back;
mod input;
pub mod program;

ghost use Rattle.std.specs.Prelude.{◌+◌, ◌*◌, ◌≤◌, length};
ghost use Rattle.core_write.specs.Puts.{HasRoom, Puts, PutsText};
ghost use Rattle.lines.specs.Decimal.{decimal};
ghost use Rattle.lines.specs.Answers.{figure, refusal_text, section_text, section_line, bad_text};
ghost use Rattle.lines.specs.Hexadecimal.{hexadecimal};

use core_read::error::Refusal;
use core_write::writer::Writer;
use escapes::put_hex_digits;
use strip::read::Section;

// No `write!` or `Display`: `write!` into lent bytes ensures neither which bytes it puts nor that it puts them all.

// ---- numbers

// A number's decimal digits, at most 20.
pub fn put_decimal<'a, 's>(w: &'s mut Writer<'a>, n: usize)
    requires { HasRoom w.old 20 }
    ensures put { PutsText w.old w.new (decimal n) }
    ensures upper_bound { w.new.place ≤ w.old.place + 20 }
{
    let mut text = [0u8; 20];
    let k = io::decimal(n as u64, &mut text);
    w.put_bytes(&text[..k]);
}

// A number after a space.
pub fn put_figure<'a, 's>(w: &'s mut Writer<'a>, n: usize)
    requires { HasRoom w.old 21 }
    ensures put { PutsText w.old w.new (figure n) }
    ensures upper_bound { w.new.place ≤ w.old.place + 21 }
{
    w.put_bytes(b" ");
    put_decimal(w, n);
}

// ---- answers

// `no NUMBER a b`
pub fn put_refusal<'a, 's>(w: &'s mut Writer<'a>, why: Refusal)
    requires { HasRoom w.old 65 }
    ensures put { PutsText w.old w.new (refusal_text why) }
    ensures upper_bound { w.new.place ≤ w.old.place + 65 }
{
    let a = why.a();
    let b = why.b();
    w.put_bytes(b"no");
    put_figure(w, why.number());
    put_figure(w, a);
    put_figure(w, b);
}

// `end`, `pass N`, `pane R N` or `no NUMBER a b`.
fn put_answer<'a, 's>(w: &'s mut Writer<'a>, answer: Result<Section, Refusal>)
    requires { HasRoom w.old 65 }
    ensures put { PutsText w.old w.new (section_text answer) }
    ensures upper_bound { w.new.place ≤ w.old.place + 65 }
{
    match answer {
        Ok(Section::End) => w.put_bytes(b"end"),
        Ok(Section::Passed { next }) => {
            w.put_bytes(b"pass");
            put_figure(w, next);
        }
        Ok(Section::Pane { end, next, .. }) => {
            w.put_bytes(b"pane");
            put_figure(w, end);
            put_figure(w, next);
        }
        Err(why) => put_refusal(w, why),
    }
}

// The same as a line, at most 66 bytes.
fn answer_line<'a, 's>(w: &'s mut Writer<'a>, answer: Result<Section, Refusal>)
    requires { HasRoom w.old 66 }
    ensures put { PutsText w.old w.new (section_line answer) }
    ensures upper_bound { w.new.place ≤ w.old.place + 66 }
{
    put_answer(w, answer);
    w.put_bytes(b"\n");
}

// The line of one that spells no bytes.
fn bad_line<'a, 's>(w: &'s mut Writer<'a>)
    requires { HasRoom w.old 4 }
    ensures { Puts w.old w.new 4 (λ order. bad_text) }
{
    w.put_bytes(b"bad\n");
}

// ---- bytes

// Bytes as hexadecimal digits, two a byte, in capitals: the kit's `hex` puts small letters into lent bytes.
fn put_hexadecimal<'a, 's>(w: &'s mut Writer<'a>, s: &[u8])
    requires { HasRoom w.old (2 * length s.now) }
    ensures { Puts w.old w.new (2 * length s.now) (λ order. hexadecimal s.now) }
{
    for b in s {
        put_hex_digits(w, *b);
    }
}
