// A signed number of 16 bits and its bits, by the library's casts, in the words of specs/Bytes.antt that contracts cite.
ghost use Rattle.std.specs.Prelude.{◌≡◌};
ghost use Rattle.core_read.specs.Bytes.{signed_of, bits_of};

pub fn signed_of(v: u16) -> i16
    ensures { result ≡ signed_of v }
{
    v.cast_signed()
}

pub fn bits_of(x: i16) -> u16
    ensures { result ≡ bits_of x }
{
    x.cast_unsigned()
}
