// Numbers and refusals as `lines` puts them, printed. `print!` of a number promises nothing of its bytes, so it prints words alone.
ghost use Rattle.std.specs.Prelude.{◌≤◌, length};
ghost use Rattle.core_read.specs.Bytes.{Room, Put};
ghost use Rattle.lines.specs.Answers.{figure, refusal_text};

use core_read::error::Refusal;
use core_write::writer::Writer;
use std::io;

// A number after a space, at the start of lent bytes, and how many bytes it is.
fn put_figure(out: &mut [u8], n: usize) -> usize
    requires { Room out.old 0 21 }
    ensures put { Put out.old 0 (length (figure n)) (figure n) result out.new }
    ensures upper_bound { result ≤ 21 }
{
    let mut w = Writer::of_text(out, 0);
    lines::put_figure(&mut w, n);
    w.place
}

// The same of a refusal, `no NUMBER a b`.
fn put_refusal(out: &mut [u8], why: Refusal) -> usize
    requires { Room out.old 0 65 }
    ensures put { Put out.old 0 (length (refusal_text why)) (refusal_text why) result out.new }
    ensures upper_bound { result ≤ 65 }
{
    let mut w = Writer::of_text(out, 0);
    lines::put_refusal(&mut w, why);
    w.place
}

// A number after a space.
pub(crate) fn print_figure(rt: &impl Print, n: usize) -> io::Result<()> {
    let mut text = [0u8; 21];
    let k = put_figure(&mut text, n);
    rt.write_all(&text[..k])
}

// The same after a word.
pub(crate) fn print_named(rt: &impl Print, name: &str, n: usize) -> io::Result<()> {
    print!(rt; "{name}")?;
    print_figure(rt, n)
}

// `no NUMBER a b`
pub(crate) fn print_refusal(rt: &impl Print, why: Refusal) -> io::Result<()> {
    let mut text = [0u8; 65];
    let k = put_refusal(&mut text, why);
    rt.write_all(&text[..k])
}
