// The words of a record tested; the label and the caption over them.
ghost use Rattle.std.specs.Prelude.{length, ◌≡◌};
ghost use Rattle.std.specs.Prelude.{Ok};
ghost use Rattle.exports_answers.specs.Answers.{part_told};
ghost use Rattle.exports_parts.specs.Parts.{Passes, label_of_words, part_or, label_outcome, caption_outcome};

use exports_answers::answers::{Fault, Part, PartOf};
use flat::layout;
use flat::words::Words;
use flat_records::{bounds, records};
use flat_text_box::txt1;
use strip_records::kind::Kind;
use text_box_parts::Span;

// SHORT_RECORD, then BAD_WORD of the first word that is not below its bound.
#[tactic(auto, unfolding(crate::specs::Parts::record_checked, flat_records::specs::Below::words_checked))]
pub fn record_checked<'a>(words: &'a [u64]) -> Result<Words<'a>, Fault>
    ensures { Passes result words.now }
{
    let w = Words::of(words).ok_or(Fault::ShortRecord)?;
    let kind = records::kind_of(w.words[layout::KIND]);
    bounds::words_checked(w, kind)?;
    Ok(w)
}

// ---- the label and the caption

// A record that is no txt1 has no label.
fn label_of(w: Words) -> Option<Span>
    ensures { result ≡ label_of_words w.entry.words.now }
{
    if w.words[layout::KIND] == records::kind_number(Kind::Txt1) {
        txt1::label_of(w)
    } else {
        None
    }
}

// The part of the strip where the label stands; another part where it is absent, or where its place and length pass the strip.
fn part_or(strip: &[u8], l: Option<Span>, other: Part) -> Part
    ensures { part_told (Ok result) ≡ part_or strip.now l (part_told (Ok other)) }
{
    match l {
        Some(Span { place, length }) if place <= strip.len() && length <= strip.len() - place => {
            Part {
                of: PartOf::Strip,
                place,
                length,
            }
        }
        _ => other,
    }
}

#[tactic(auto, unfolding(crate::specs::Parts::label_outcome, crate::specs::Parts::of_record, crate::specs::Parts::record_checked))]
pub fn label(data: &[u8], words: &[u64]) -> Result<Part, Fault>
    ensures { part_told result ≡ label_outcome «data».now words.now }
{
    let w = record_checked(words)?;
    let l = label_of(w);
    let none = Part {
        of: PartOf::Strip,
        place: 0,
        length: 0,
    };
    Ok(part_or(data, l, none))
}

#[tactic(auto, unfolding(crate::specs::Parts::caption_outcome, crate::specs::Parts::of_record, crate::specs::Parts::record_checked))]
pub fn caption(strip: &[u8], words: &[u64], lent: &[u8]) -> Result<Part, Fault>
    ensures { part_told result ≡ caption_outcome strip.now words.now lent.now }
{
    let w = record_checked(words)?;
    let l = label_of(w);
    let whole = Part {
        of: PartOf::Caption,
        place: 0,
        length: lent.len(),
    };
    Ok(part_or(strip, l, whole))
}
