// The words that an alignment pane has beyond the base.
ghost use Rattle.std.specs.Prelude.{◌≡◌};
ghost use Rattle.flat.specs.Lent.{Stores};
ghost use Rattle.flat_kinds.specs.Own.{alignment_words, alignment_at};

use alignment_fields::AlignmentPane;
use flat::layout;
use flat::words::{Words, WordsMut};

pub fn put_alignment<'a, 's>(out: &'s mut WordsMut<'a>, x: AlignmentPane)
    ensures { Stores out.old out.new 62 (alignment_words x) }
{
    let words = [
        x.direction as u64,
        x.default_margin.bits as u64,
        x.is_align_last_pane as u64,
        x.is_vertical_alignment as u64,
    ];
    out.store(layout::DIRECTION, &words);
}

pub fn alignment_of(w: Words) -> AlignmentPane
    ensures { result ≡ alignment_at w.entry.words.now }
{
    AlignmentPane {
        direction: w.at(layout::DIRECTION),
        default_margin: w.at(layout::DEFAULT_MARGIN),
        is_align_last_pane: w.at(layout::IS_ALIGN_LAST_PANE),
        is_vertical_alignment: w.at(layout::IS_VERTICAL_ALIGNMENT),
    }
}
