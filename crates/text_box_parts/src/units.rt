// Whether the units of a text are well-formed UTF-16, straight from the bytes.
ghost use Rattle.std.specs.Prelude.{◌≡◌, ◌+◌, ◌*◌};
ghost use Rattle.core_read.specs.Bytes.{Room};
ghost use Rattle.core_read.specs.Lists.{numbers_at};
ghost use Rattle.utf16.specs.Utf16.{well_formed16};

use core_read::reader::Source;

// The n units from a place on.
pub fn well_formed_at(source: Source, at: usize, n: usize) -> bool
    requires { Room source.«data».now at (2 * n) }
    ensures { result ≡ well_formed16 (numbers_at source.entry.order 2 n source.entry.«data».now at) }
{
    let order = source.order;
    let bytes = &source.data[at..at + 2 * n];
    let mut waits = false;
    for unit in bytes.chunks_exact(2) {
        let u = Source { order, data: unit }.number_at(0);
        if utf16::breaks(waits, u) {
            return false;
        }
        waits = utf16::high_surrogate(u);
    }
    !waits
}
