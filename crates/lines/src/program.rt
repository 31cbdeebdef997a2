// The loop of a program that reads lines of hexadecimal digits from standard input and prints a line for each.
ghost use Rattle.std.specs.Prelude.{◌≡◌, ℕ, List, length};
ghost use Rattle.core_read.specs.Bytes.{Room};
ghost use Rattle.digits.specs.declared.Line.{Line};
ghost use Rattle.lines.specs.Answered.{answer_to};
ghost use Rattle.lines.specs.Back.{back_to};
ghost use Rattle.lines.specs.Printed.{Prints, printed_into};

use crate::answered::line_answered;
use crate::back::line_written_back;
use crate::input;
use digits::Line;
use std::io;

// At the end of a line: its own line is put into out, and written to standard output as it stands there.
#[tactic(auto, unfolding(crate::specs::Printed::printed_into))]
fn print_line<R: Print, F: Fn(&[u8], Line, &mut [u8]) -> usize>(
    rt: &R,
    step: &F,
    bytes: &[u8],
    ended: Option<Line>,
    out: &mut [u8],
) -> io::Result<()>
    ghost printed: { List ℕ → Line → List ℕ }
    requires { Prints F.Fn step.now printed (length out.old) }
    ensures { out.new ≡ printed_into printed bytes.now ended out.old }
{
    if let Some(line) = ended {
        let n = step(bytes, line, out);
        return rt.write_all(&out[..n]);
    }
    Ok(())
}

// Reads until the input ends, and prints each line: the step puts it into out. The count of turns is there because every loop must be seen to end.
// A failed read counts as the end of the input, and its error is answered once the line that it ends is printed; a failed write ends it at once.
// No contract can say what was read and written; what is left in the lent bytes depends on it. As many as were lent are there again, also where it fails.
#[tactic(auto, unfolding(crate::specs::Input::begun))]
pub fn print_all<R: Input + Print, F: Fn(&[u8], Line, &mut [u8]) -> usize>(
    rt: &R,
    step: F,
    chunk: &mut [u8],
    bytes: &mut [u8],
    out: &mut [u8],
) -> io::Result<()>
    ghost printed: { List ℕ → Line → List ℕ }
    requires { Prints F.Fn step printed (length out.old) }
    ensures { length out.new ≡ length out.old }
{
    let mut from = rt.reader();
    let mut input = input::begin();
    for _ in 0..u64::MAX {
        let (after, read) = input::next(&mut from, chunk, bytes, input);
        input = after;
        print_line(rt, &step, bytes, input.ended, out)?;
        read?;
        if input.count == 0 {
            break;
        }
    }
    Ok(())
}

// The loop with a step that puts the answer. A function of its own, since a generic function that makes a closure can name no ghost of `print_all`.
fn print_all_answers<R: Input + Print, F: Fn(&[u8], Line, &mut [u8]) -> usize>(
    rt: &R,
    step: F,
    chunk: &mut [u8],
    bytes: &mut [u8],
    out: &mut [u8],
) -> io::Result<()>
    requires { Prints F.Fn step answer_to (length out.old) }
    ensures { length out.new ≡ length out.old }
{
    print_all(rt, step, chunk, bytes, out)
}

// The answer to each line, which has at most 66 bytes.
pub fn print_answers<R: Input + Print>(
    rt: &R,
    chunk: &mut [u8],
    bytes: &mut [u8],
    out: &mut [u8],
) -> io::Result<()>
    requires { Room out.old 0 66 }
    ensures { length out.new ≡ length out.old }
{
    let step = |bytes: &[u8], line, out: &mut [u8]| line_answered(bytes, line, out);
    print_all_answers(rt, step, chunk, bytes, out)
}

// The loop with a step that puts the answer with a pane written back.
fn print_all_written_back<R: Input + Print, F: Fn(&[u8], Line, &mut [u8]) -> usize>(
    rt: &R,
    step: F,
    chunk: &mut [u8],
    bytes: &mut [u8],
    out: &mut [u8],
) -> io::Result<()>
    requires { Prints F.Fn step back_to (length out.old) }
    ensures { length out.new ≡ length out.old }
{
    print_all(rt, step, chunk, bytes, out)
}

// The same with each pane that is read written back, which has at most 65,603 bytes.
pub fn print_written_back<R: Input + Print>(
    rt: &R,
    chunk: &mut [u8],
    bytes: &mut [u8],
    out: &mut [u8],
) -> io::Result<()>
    requires { Room out.old 0 65603 }
    ensures { length out.new ≡ length out.old }
{
    let step = |bytes: &[u8], line, out: &mut [u8]| line_written_back(bytes, line, out);
    print_all_written_back(rt, step, chunk, bytes, out)
}
