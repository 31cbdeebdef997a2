// Floats kept by their bits.
#![tactic(auto)]

ghost use Rattle.std.specs.Prelude.{◌≡◌};
ghost use Rattle.floats.specs.Floats.{value_of, bits_of};

// IEEE 754's binary32 interchange format: the 32 bits, a NaN's payload included. Two are equal where their bits are.
#[derive(Clone, Copy, Debug, PartialEq, Eq)]
pub struct Binary32 {
    pub bits: u32,
}

// What the bits stand for: a number (an infinity is one), or a NaN, which keeps its bits. Neither is an error, so this is no Result.
#[derive(Clone, Copy, Debug)]
pub enum FloatValue {
    Number(f32),
    NotANumber(u32),
}

impl From<Binary32> for FloatValue {
    ghost from_gives = { λ x v. v ≡ value_of x };

    fn from(x: Binary32) -> FloatValue {
        let bits = x.bits;
        if 0x7F80_0000 < bits % 0x8000_0000 {
            FloatValue::NotANumber(bits)
        } else {
            FloatValue::Number(f32::from_bits(bits))
        }
    }
}

impl From<FloatValue> for Binary32 {
    ghost from_gives = { λ v x. x ≡ bits_of v };

    fn from(v: FloatValue) -> Binary32 {
        let bits = match v {
            FloatValue::Number(x) if x.is_nan() => 0x7FC0_0000,
            FloatValue::Number(x) => x.to_bits(),
            FloatValue::NotANumber(bits) => bits,
        };
        Binary32 { bits }
    }
}

impl Binary32 {
    // Through its value: the same bits.
    pub fn through_value(self) -> Binary32
        ensures { result ≡ self }
    {
        Binary32::from(FloatValue::from(self))
    }
}
