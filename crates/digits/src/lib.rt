// A line of hexadecimal digits, taken a byte at a time into lent bytes. The kit's `hex` takes a whole text, and a line comes in chunks.
#![tactic(auto)]

ghost use Rattle.std.specs.Prelude.{◌≡◌, ◌+◌, ◌*◌, ◌/◌, ◌<◌};
ghost use Rattle.digits.specs.Digits.{value_of, blank_line, bad_line, has_begun, half_put, line_after, bytes_after, even_line, before_feed, bytes_after_all, fed};

// The most digits of a line.
pub const MOST: usize = 8192;

// The line so far: how many digits it has, and whether it is bad. A bad line counts the digits after its fault too, and they still go into the lent bytes,
// so the count stands beside the flag and not in a case of an enum.
#[derive(Clone, Copy)]
pub struct Line {
    pub digits: usize,
    pub bad: bool,
}

// The line after bytes up to a line feed, and the line feed's place, if there is one.
#[derive(Clone, Copy)]
pub struct Fed {
    pub line: Line,
    pub feed: Option<usize>,
}

pub fn blank_line() -> Line
    ensures { result ≡ blank_line }
{
    Line {
        digits: 0,
        bad: false,
    }
}

fn bad_line(digits: usize) -> Line
    ensures { result ≡ bad_line digits }
{
    Line { digits, bad: true }
}

// Whether a byte of the line was taken.
#[tactic(auto, unfolding(crate::specs::Digits::has_begun))]
pub fn has_begun(line: Line) -> bool
    ensures { result ≡ has_begun line }
{
    line.bad | (line.digits != 0)
}

// A digit's value.
#[tactic(auto, unfolding(crate::specs::Digits::value_of))]
pub fn value_of(b: u8) -> Option<u8>
    ensures { result ≡ value_of b }
{
    match b {
        b'0'..=b'9' => Some(b - b'0'),
        b'A'..=b'F' => Some(b - b'A' + 10),
        b'a'..=b'f' => Some(b - b'a' + 10),
        _ => None,
    }
}

// A byte with another low half.
fn joined(old: u8, v: u8) -> u8
    requires { v < 16 }
    ensures { result ≡ old / 16 * 16 + v }
{
    old / 16 * 16 + v
}

// Puts a digit's value into the high half of a byte, or adds it as the low half.
fn put_half(bytes: &mut [u8], at: usize, high: bool, v: u8)
    requires { v < 16 }
    ensures { bytes.new ≡ half_put bytes.old at high v }
{
    if at < bytes.len() {
        if high {
            bytes[at] = v * 16;
        } else {
            bytes[at] = joined(bytes[at], v);
        }
    }
}

// The line after one more byte that does not end it.
#[tactic(auto, using(crate::proofs::Feeds::digit_small), unfolding(crate::specs::Digits::refused, crate::specs::Digits::line_after, crate::specs::Digits::bytes_after))]
pub fn digit(bytes: &mut [u8], line: Line, b: u8) -> Line
    ensures value { result ≡ line_after line b }
    ensures bytes_after { bytes.new ≡ bytes_after bytes.old line b }
{
    let n = line.digits;
    let Some(v) = value_of(b) else {
        return bad_line(n);
    };
    if MOST <= n {
        return bad_line(n);
    }
    put_half(bytes, n / 2, n % 2 == 0, v);
    Line {
        digits: n + 1,
        bad: line.bad,
    }
}

// The bytes of a text up to a line feed.
pub fn feed(text: &[u8], bytes: &mut [u8], line: Line) -> Fed
    ensures value { result ≡ fed text.now line }
    ensures bytes_after { bytes.new ≡ bytes_after_all bytes.old line (before_feed text.now) }
{
    let mut l = line;
    for (i, b) in text.iter().enumerate() {
        if *b == b'\n' {
            return Fed {
                line: l,
                feed: Some(i),
            };
        }
        l = digit(bytes, l, *b);
    }
    Fed {
        line: l,
        feed: None,
    }
}

// Whether a line that has ended spells bytes, and no more than there is room for.
pub fn spells(line: Line, room: usize) -> bool
    ensures { result ≡ even_line line room }
{
    let n = line.digits;
    if line.bad {
        return false;
    }
    (n % 2 == 0) & (n / 2 <= room)
}
