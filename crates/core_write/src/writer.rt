// Writes into lent bytes: each step of a writer puts bytes at its place, moves it behind them, and changes no other byte.
ghost use Rattle.std.specs.Prelude.{◌≡◌, ◌*◌, ◌≤◌, length, take, replicate};
ghost use Rattle.core_write.specs.Puts.{HasRoom, Puts};
ghost use Rattle.core_read.specs.Bytes.{bytes_of, bytes_of_all, fixed, padding};

use core_read::cursor::ByteOrder;
use core_read::number::Number;
use core_read::text::FixedString;

// How many zeros a place lacks, from its low two bits: the chip of the panel divides slowly.
pub fn padding_at(p: usize) -> usize
    ensures { result ≡ padding p }
{
    (4 - (p & 3)) & 3
}

// The bytes of src, one by one: for lent bytes copy_from_slice is a call of memmove, which the archive for C needs for nothing else.
fn copy_bytes(src: &[u8], out: &mut [u8])
    requires { length out.old ≡ length src.now }
    ensures { out.new ≡ src.now }
{
    for (i, b) in src.iter().enumerate() {
        out[i] = *b;
    }
}

// Lent bytes that are written to, the order of their numbers, and the place of the next byte.
#[derive(Drop)]
pub struct Writer<'a> {
    pub order: ByteOrder,
    pub out: &'a mut [u8],
    pub place: usize,
}

impl<'a> Writer<'a> {
    // A writer of text: its bytes are the same in both orders, so the order says nothing.
    pub fn of_text(out: &'a mut [u8], place: usize) -> Writer<'a>
        ensures same_reference { result.out.ghost_name ≡ out.entry.ghost_name }
        ensures same_bytes { result.out.now ≡ out.old }
        ensures at_place { result.place ≡ place }
    {
        Writer {
            order: ByteOrder::Little,
            out,
            place,
        }
    }

    pub fn put_number<'s, T: Number>(&'s mut self, v: T)
        requires { HasRoom self.old T.WIDTH }
        ensures { Puts self.old self.new T.WIDTH (λ order. bytes_of order T.WIDTH (T.bits v)) }
    {
        let end = self.place + T::WIDTH;
        v.to_bytes(self.order, &mut self.out[self.place..end]);
        self.place = end;
    }

    // A list of numbers of 2 bytes, one after the other.
    pub fn put_u16s<'s>(&'s mut self, list: &[u16])
        requires { HasRoom self.old (2 * length list.now) }
        ensures { Puts self.old self.new (2 * length list.now) (λ order. bytes_of_all order 2 list.now) }
    {
        for v in list {
            self.put_number(*v);
        }
    }

    // The bytes of s.
    pub fn put_bytes<'s>(&'s mut self, s: &[u8])
        requires { HasRoom self.old (length s.now) }
        ensures { Puts self.old self.new (length s.now) (λ order. s.now) }
    {
        let end = self.place + s.len();
        copy_bytes(s, &mut self.out[self.place..end]);
        self.place = end;
    }

    // n zeros.
    pub fn put_zeros<'s>(&'s mut self, n: usize)
        requires { HasRoom self.old n }
        ensures { Puts self.old self.new n (λ order. replicate n 0) }
    {
        let end = self.place + n;
        self.out[self.place..end].fill(0);
        self.place = end;
    }

    // The bytes of s and zeros after them, width bytes in all.
    pub fn put_string<'s>(&'s mut self, s: &[u8], width: usize)
        requires { (length s.now ≤ width) × HasRoom self.old width }
        ensures { Puts self.old self.new width (λ order. fixed width s.now) }
    {
        self.put_bytes(s);
        self.put_zeros(width - s.len());
    }

    pub fn put_fixed_string<'s, const N: usize>(&'s mut self, s: FixedString<N>)
        requires { (s.count ≤ N) × HasRoom self.old N }
        ensures { Puts self.old self.new N (λ order. fixed N (take s.entry.count s.entry.bytes)) }
    {
        let b = s.bytes;
        let k = s.count;
        self.put_string(&b[..k], N);
    }

    // Zeros up to a multiple of 4 of the absolute place.
    pub fn put_padding<'s>(&'s mut self)
        requires { HasRoom self.old (padding self.old.place) }
        ensures { Puts self.old self.new (padding self.old.place) (λ order. replicate (padding self.old.place) 0) }
    {
        self.put_zeros(padding_at(self.place));
    }
}
