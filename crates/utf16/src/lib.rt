// Well-formed UTF-16 by the Unicode Standard's D91.
#![tactic(auto)]

ghost use Rattle.std.specs.Prelude.{◌≡◌};
ghost use Rattle.utf16.specs.Utf16.{high_surrogate, low_surrogate, breaks, utf16_of};

pub fn high_surrogate(u: u16) -> bool
    ensures { result ≡ high_surrogate u }
{
    (0xD800 <= u) & (u <= 0xDBFF)
}

pub fn low_surrogate(u: u16) -> bool
    ensures { result ≡ low_surrogate u }
{
    (0xDC00 <= u) & (u <= 0xDFFF)
}

// A unit where none such may stand: a low surrogate after no high one, or another after a high one, which waits for it.
pub fn breaks(waits: bool, u: u16) -> bool
    ensures { result ≡ breaks waits u }
{
    let low = low_surrogate(u);
    if waits { !low } else { low }
}

// How many units stand before the first unpaired surrogate, if there is one.
pub fn first_unpaired(units: &[u16]) -> Option<usize>
    ensures { result ≡ utf16_of units.now }
{
    // what is left, from the first unit of a character on
    let mut rest = units;
    loop {
        rest = match rest {
            [] => return None,
            [u, after @ ..] if !(high_surrogate(*u) | low_surrogate(*u)) => after,
            [h, l, after @ ..] if high_surrogate(*h) & low_surrogate(*l) => after,
            _ => return Some(units.len() - rest.len()),
        };
    }
}
