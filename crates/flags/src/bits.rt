// Flags as bits.
ghost use Rattle.std.specs.Prelude.{◌≡◌, ◌≤◌, length, map};
ghost use Rattle.flags.specs.Packed.{flag, pack};

// Flags side by side, the lowest bit first.
pub(crate) fn packed(flags: &[bool]) -> u16
    requires { length flags.now ≤ 16 }
    ensures { result ≡ pack (map flag flags.now) }
{
    let mut n = 0;
    for flag in flags.iter().rev() {
        n = 2 * n + u16::from(*flag);
    }
    n
}
