// The section read with no list lent.
ghost use Rattle.std.specs.Prelude.{◌≡◌};
ghost use Rattle.strip_header.specs.Header.{section_by_number};
ghost use Rattle.strip_read.specs.Read.{measured};

use crate::read::{SectionRead, answered, body_at, finish};
use core_checks::checks;
use core_read::reader::{Reader, Source};
use strip_kinds::body::measure_kind;

// The section at a place, with no list lent: checks 1, 2, the end, the header, check 8, the body, checks 7 and 19. Its answer and its record are those of
// `read_section` with lists of full length.
pub fn measure_section<'a>(source: Source<'a>, place: usize) -> SectionRead
    ensures value { result ≡ measured source.entry.order source.entry.«data».now place }
    ensures answer_value { section_by_number result.answer ≡ section_by_number (measured source.entry.order source.entry.«data».now place).answer }
{
    let checked = checks::section_start(source.data.len(), place);
    match body_at(source, place, checked) {
        Ok(b) => {
            let cursor = b.run;
            let r = Reader { source, cursor };
            let read = measure_kind(r, b.kind, place + 8, Some(b.next));
            finish(read, b.next)
        }
        Err(answer) => answered(answer),
    }
}
