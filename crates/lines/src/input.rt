// Lines of hexadecimal digits from a reader, for a program's loop: it asks for more until a line has ended, answers the line, and asks again.
ghost use Rattle.std.specs.Prelude.{◌≡◌, cond, ◌≤◌, ◌<◌, length, take, drop};
ghost use Rattle.digits.specs.Digits.{before_feed, bytes_after_all};
ghost use Rattle.lines.specs.Input.{begun, with_line, remains, onward, refilled};

use digits::Line;
use std::io;
use std::io::Read;

// The line that goes on, and the one that has ended, if one has; the place in the chunk that was read, and how many bytes it has: none once the input has ended.
// The chunk is lent beside these places, and std's BufReader does not keep them: it takes memory, and the programs allocate nothing.
#[derive(Clone, Copy)]
pub struct Input {
    pub line: Line,
    pub ended: Option<Line>,
    pub at: usize,
    pub count: usize,
}

// Before anything is read.
#[tactic(auto, unfolding(crate::specs::Input::begun))]
pub fn begin() -> Input
    ensures { result ≡ begun }
{
    Input {
        line: digits::blank_line(),
        ended: None,
        at: 0,
        count: 0,
    }
}

// A line that has ended is kept beside a blank one.
#[tactic(auto, unfolding(crate::specs::Input::with_line))]
fn with_line(line: Line, ends: bool, at: usize, count: usize) -> Input
    ensures { result ≡ with_line line ends at count }
{
    let (line, ended) = if ends {
        (digits::blank_line(), Some(line))
    } else {
        (line, None)
    };
    Input {
        line,
        ended,
        at,
        count,
    }
}

// Bytes of the chunk up to a line feed.
fn onward_in(chunk: &[u8], bytes: &mut [u8], input: Input) -> Input
    requires { (input.at < input.count) × (input.count ≤ length chunk.now) }
    ensures value { result ≡ onward chunk.now input }
    ensures bytes_after { bytes.new ≡ bytes_after_all bytes.old input.line (before_feed (drop input.at (take input.count chunk.now))) }
{
    let count = input.count;
    let line = input.line;
    let rest = &chunk[input.at..count];
    let fed = digits::feed(rest, bytes, line);
    match fed.feed {
        Some(k) => with_line(fed.line, true, input.at + k + 1, count),
        None => with_line(fed.line, false, count, count),
    }
}

// More bytes, read into the chunk, and the read's error. A failed read counts as the end.
#[tactic(auto, unfolding(crate::specs::Input::refilled, crate::specs::Input::with_line))]
fn refill<R: Read>(from: &mut R, chunk: &mut [u8], input: Input) -> (Input, io::Result<()>)
    ensures { (result.0 ≡ refilled result.0.count input) × (result.0.count ≤ length chunk.new) }
{
    let (count, read) = match from.read(chunk) {
        Ok(count) => (count, Ok(())),
        Err(e) => (0, Err(e)),
    };
    let line = input.line;
    let ends = (count == 0) & digits::has_begun(line);
    (with_line(line, ends, 0, count), read)
}

// The bytes of the chunk up to a line feed; where none is left, more are read. A failed read counts as the end, and its error stands beside the line that it ends,
// so that the line can be printed first: `?` here would lose it.
pub fn next<R: Read>(
    from: &mut R,
    chunk: &mut [u8],
    bytes: &mut [u8],
    input: Input,
) -> (Input, io::Result<()>)
    requires { input.count ≤ length chunk.old }
    ensures value { result.0 ≡ cond (remains input) (onward chunk.old input) (refilled result.0.count input) }
    ensures count_in_bounds { result.0.count ≤ length chunk.new }
    ensures chunk_after { chunk.new ≡ cond (remains input) chunk.old chunk.new }
    ensures bytes_after { bytes.new ≡ cond (remains input) (bytes_after_all bytes.old input.line (before_feed (drop input.at (take input.count chunk.old)))) bytes.old }
{
    if input.at < input.count {
        (onward_in(chunk, bytes, input), Ok(()))
    } else {
        refill(from, chunk, input)
    }
}
