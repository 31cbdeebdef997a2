// Numbers of a fixed width, as their bytes in an order.
ghost use Rattle.std.specs.Prelude.{◌≡◌, ℕ, ◌^◌, ◌<◌, refl, length};
ghost use Rattle.core_read.specs.Bytes.{spelled, bytes_of, signed_of, bits_of};
ghost use Rattle.std.proofs.Common.{lit<};
ghost use Rattle.core_read.specs.Laws.{bits_signed};

use crate::cursor::ByteOrder;

pub trait Number: Copy {
    // How many bytes it has.
    const WIDTH: usize;

    ghost WIDTH: { ℕ };

    ghost some_bytes: { 0 < WIDTH };

    // The number that its bytes spell, and the number of this type whose bytes spell another.
    ghost bits: { Self → ℕ };

    ghost of_bits: { ℕ → Self };

    fn of_bytes(order: ByteOrder, bytes: &[u8]) -> Self
        requires { length bytes.now ≡ WIDTH }
        ensures { result ≡ of_bits (spelled order bytes.now) };

    fn to_bytes(self, order: ByteOrder, out: &mut [u8])
        requires { length out.old ≡ WIDTH }
        ensures { out.new ≡ bytes_of order WIDTH (bits self) };

    // No two numbers that fit the bytes are one of this type.
    ghost bits_back: { (n : ℕ) → n < 256 ^ WIDTH → bits (of_bits n) ≡ n };
}

impl Number for u8 {
    const WIDTH: usize = 1;

    ghost WIDTH = { 1 };

    ghost some_bytes = { lit< tt };

    ghost bits = { λ n. n };

    ghost of_bits = { λ n. n };

    fn of_bytes(_order: ByteOrder, bytes: &[u8]) -> u8 {
        bytes[0]
    }

    fn to_bytes(self, _order: ByteOrder, out: &mut [u8]) {
        out[0] = self;
    }

    ghost bits_back = { λ n _. refl };
}

impl Number for u16 {
    const WIDTH: usize = 2;

    ghost WIDTH = { 2 };

    ghost some_bytes = { lit< tt };

    ghost bits = { λ n. n };

    ghost of_bits = { λ n. n };

    fn of_bytes(order: ByteOrder, bytes: &[u8]) -> u16 {
        match order {
            ByteOrder::Little => u16::from_le_bytes([bytes[0], bytes[1]]),
            ByteOrder::Big => u16::from_le_bytes([bytes[1], bytes[0]]),
        }
    }

    fn to_bytes(self, order: ByteOrder, out: &mut [u8]) {
        match order {
            ByteOrder::Little => out.copy_from_slice(&u16::to_le_bytes(self)),
            ByteOrder::Big => out.copy_from_slice(&u16::to_be_bytes(self)),
        }
    }

    ghost bits_back = { λ n _. refl };
}

impl Number for u32 {
    const WIDTH: usize = 4;

    ghost WIDTH = { 4 };

    ghost some_bytes = { lit< tt };

    ghost bits = { λ n. n };

    ghost of_bits = { λ n. n };

    fn of_bytes(order: ByteOrder, bytes: &[u8]) -> u32 {
        match order {
            ByteOrder::Little => u32::from_le_bytes([bytes[0], bytes[1], bytes[2], bytes[3]]),
            ByteOrder::Big => u32::from_le_bytes([bytes[3], bytes[2], bytes[1], bytes[0]]),
        }
    }

    fn to_bytes(self, order: ByteOrder, out: &mut [u8]) {
        match order {
            ByteOrder::Little => out.copy_from_slice(&u32::to_le_bytes(self)),
            ByteOrder::Big => out.copy_from_slice(&u32::to_be_bytes(self)),
        }
    }

    ghost bits_back = { λ n _. refl };
}

impl Number for i16 {
    const WIDTH: usize = 2;

    ghost WIDTH = { 2 };

    ghost some_bytes = { lit< tt };

    ghost bits = { bits_of };

    ghost of_bits = { signed_of };

    fn of_bytes(order: ByteOrder, bytes: &[u8]) -> i16 {
        u16::of_bytes(order, bytes).cast_signed()
    }

    fn to_bytes(self, order: ByteOrder, out: &mut [u8]) {
        self.cast_unsigned().to_bytes(order, out);
    }

    ghost bits_back = { bits_signed };
}
