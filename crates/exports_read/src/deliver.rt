// A body that was read, as a section with its next place: its words are stored where it was not refused.
ghost use Rattle.std.specs.Prelude.{◌≡◌, Ok};
ghost use Rattle.strip_records.specs.Whole.{Lists};
ghost use Rattle.strip_read.specs.Read.{finished};
ghost use Rattle.exports_answers.specs.Answers.{section_answer};
ghost use Rattle.exports_read.specs.Outcomes.{read_outcome, delivered};

use core_read::cursor::Cursor;
use core_read::error::Refusal;
use flat::words::WordsMut;
use flat_records::records::Own;
use pane_read::Pane;
use pane_read::parsed::Parsed;
use strip_header::Section;

// The words of a pane that was read up to a cursor are stored.
#[tactic(auto, unfolding(crate::specs::Outcomes::delivered, strip_read::specs::Read::finished))]
pub(crate) fn deliver_pane<'a, 's, T: Own>(
    words: &'s mut WordsMut<'a>,
    next: usize,
    run: Cursor,
    base: Pane,
    own: T,
) -> Section
    ensures same_record { words.new.words.ghost_name ≡ words.old.words.ghost_name }
    ensures delivered { (l : Lists) → read_outcome (section_answer (Ok result)) words.new.words.now l ≡ delivered (finished (Ok run) next (T.of_kind base own)) words.old.words.now l }
{
    let Cursor { pos: end, reach } = run;
    own.put(base, words);
    Section::Pane { end, next, reach }
}

#[tactic(auto, unfolding(crate::specs::Outcomes::delivered, strip_read::specs::Read::finished, strip_read::specs::Read::refused_with))]
pub(crate) fn deliver<'a, 's, T: Own>(
    words: &'s mut WordsMut<'a>,
    next: usize,
    read: Parsed<T>,
) -> Result<Section, Refusal>
    ensures same_record { words.new.words.ghost_name ≡ words.old.words.ghost_name }
    ensures delivered { (l : Lists) → read_outcome (section_answer result) words.new.words.now l ≡ delivered (finished read.answer next (T.of_kind read.base read.own)) words.old.words.now l }
{
    let Cursor { pos: end, reach } = read.answer?;
    read.own.put(read.base, words);
    Ok(Section::Pane { end, next, reach })
}
