// Fixed strings, and strings that end at a NUL.
ghost use Rattle.std.specs.Prelude.{◌≡◌, ◌==◌, ◌+◌, ◌≤◌, min, length, position};
ghost use Rattle.core_read.specs.Taken.{up_to_nul, has_zero, over, fixed_string_taken};

use crate::error::Refusal;
use crate::reader::{Field, Reader, Source};

// A string of at most N bytes: its bytes with their count, since there is no heap. What stands after them is no part of it.
#[derive(Clone, Copy)]
pub struct FixedString<const N: usize> {
    pub bytes: [u8; N],
    pub count: usize,
}

// A byte that is 0.
pub fn has_zero(s: &[u8]) -> bool
    ensures { result ≡ has_zero s.now }
{
    s.contains(&0)
}

// Puts the bytes of src before its first NUL at the front of out, and answers their count. Byte by byte: a name is short, and a copy of unknown length is a call of memcpy.
fn fill_string(src: &[u8], out: &mut [u8]) -> usize
    requires { length src.now ≤ length out.old }
    ensures value { result ≡ length (up_to_nul src.now) }
    ensures out_after { out.new ≡ over (up_to_nul src.now) out.old }
{
    for (i, b) in src.iter().enumerate() {
        if *b == 0 {
            return i;
        }
        out[i] = *b;
    }
    src.len()
}

// The end of the at most width bytes from a place on.
fn end_of(length: usize, at: usize, width: usize) -> usize
    requires { at ≤ length }
    ensures { result ≡ min (at + width) length }
{
    if width <= length - at {
        at + width
    } else {
        length
    }
}

// Where the first NUL stands.
fn first_nul(src: &[u8]) -> Option<usize>
    ensures { result ≡ position (λ b. b == 0) src.now }
{
    src.iter().position(|b| *b == 0)
}

// How many bytes stand before the first NUL.
pub(crate) fn string_length(src: &[u8]) -> usize
    ensures { result ≡ length (up_to_nul src.now) }
{
    first_nul(src).unwrap_or(src.len())
}

// Its bytes before the first NUL of the at most N bytes that are left.
impl<const N: usize> Field for FixedString<N> {
    ghost taken = { λ order s p. fixed_string_taken N s p };

    const WIDTH: usize = N;

    ghost WIDTH = { N };

    fn fields<'a, 's>(r: &'s mut Reader<'a>) -> Result<FixedString<N>, Refusal> {
        let at = r.cursor.pos;
        let data = r.source.data;
        if at < data.len() {
            let end = end_of(data.len(), at, N);
            let mut bytes = [0u8; N];
            let count = fill_string(&data[at..end], &mut bytes);
            r.cursor = r.cursor.advanced(end - at);
            return Ok(FixedString { bytes, count });
        }
        Err(Refusal::UnexpectedEof {
            offset: at,
            requested: N,
        })
    }

    fn at<'a>(source: Source<'a>, at: usize) -> FixedString<N> {
        let mut bytes = [0u8; N];
        let count = fill_string(&source.data[at..at + N], &mut bytes);
        FixedString { bytes, count }
    }
}
