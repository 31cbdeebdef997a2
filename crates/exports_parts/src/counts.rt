// How many numbers of each list the words of a record count.
ghost use Rattle.std.specs.Prelude.{ℕ, List, ◌≤◌, length, ◌≡◌};
ghost use Rattle.flat_records.specs.Records.{record_by};
ghost use Rattle.exports_answers.specs.Answers.{returned};
ghost use Rattle.exports_parts.specs.Counts.{counts_by, filled_words, filled_into, filled_told, filled_outcome};

use exports_answers::answers;
use exports_answers::answers::Fault;
use flat::layout;
use flat::words::{BadWord, Words};
use flat_records::bounds::Bound;
use flat_records::{bounds, records};
use flat_text_box::txt1;
use strip_records::filled;
use strip_records::kind::Kind;

const KIND: [Bound; 1] = [(layout::KIND, 1, 5)];

const PICTURE: [Bound; 1] = [(layout::PICTURE_QUADS, 1, 256)];

const TEXT_BOX: [Bound; 4] = [
    (layout::TEXT_LENGTH, 1, 65_536),
    (layout::TEXT_PRESENT, 1, 2),
    (layout::LINES_PRESENT, 1, 2),
    (layout::LINES_COUNT, 1, 256),
];

const WINDOW: [Bound; 2] = [
    (layout::FRAMES_COUNT, 1, 256),
    (layout::CONTENT_QUADS, 1, 256),
];

// The bounds of the words that count.
fn counts_checked(w: Words, kind: Kind) -> Result<(), BadWord>
    ensures { result ≡ counts_by kind w.entry.words.now }
{
    bounds::all_below(w, &KIND)?;
    match kind {
        Kind::Pan1 | Kind::Ali1 => Ok(()),
        Kind::Pic1 => bounds::all_below(w, &PICTURE),
        Kind::Txt1 => bounds::all_below(w, &TEXT_BOX),
        Kind::Wnd1 => bounds::all_below(w, &WINDOW),
    }
}

// The counts by kind: quads, units, lines, frames.
#[tactic(auto, unfolding(flat_records::specs::Records::record_by, flat_kinds::specs::Own::picture_at, flat_kinds::specs::Own::window_at, flat_text_box::specs::TextBox::text_box_at))]
fn counts_of(w: Words, kind: Kind) -> [u64; 4]
    ensures { result ≡ filled_words (record_by kind w.entry.words.now) }
{
    match kind {
        Kind::Pan1 | Kind::Ali1 => [0, 0, 0, 0],
        Kind::Pic1 => {
            let quads = filled::quads_of(w.at(layout::PICTURE_QUADS));
            [quads as u64, 0, 0, 0]
        }
        Kind::Txt1 => {
            let units = filled::units_of(txt1::text_of(w), w.at(layout::TEXT_LENGTH));
            let lines = filled::lines_of(txt1::lines_of(w));
            [0, units as u64, lines as u64, 0]
        }
        Kind::Wnd1 => {
            let quads = filled::quads_of(w.at(layout::CONTENT_QUADS));
            let frames = filled::frames_of(w.at(layout::FRAMES_COUNT));
            [quads as u64, 0, 0, frames as u64]
        }
    }
}

// SHORT_RECORD, then BAD_WORD of the first word that counts and is not below its bound, and then the counts.
#[tactic(auto, unfolding(crate::specs::Counts::counts_checked, crate::specs::Counts::filled_outcome))]
fn counts_found(words: &[u64]) -> Result<[u64; 4], Fault>
    ensures { (f : List ℕ) → filled_told result f ≡ filled_outcome words.now f }
{
    let w = Words::of(words).ok_or(Fault::ShortRecord)?;
    let kind = records::kind_of(w.words[layout::KIND]);
    counts_checked(w, kind)?;
    Ok(counts_of(w, kind))
}

fn put(out: &mut [u64], counts: [u64; 4]) -> u64
    requires { 4 ≤ length out.old }
    ensures { returned result out.new ≡ filled_into out.old counts }
{
    out[..counts.len()].copy_from_slice(&counts);
    layout::FILLED
}

// The number that the call returns, with the counts or the answer's words at the front of out.
pub fn counted(words: &[u64], out: &mut [u64]) -> u64
    requires { 4 ≤ length out.old }
    ensures { returned result out.new ≡ filled_outcome words.now out.old }
{
    match counts_found(words) {
        Ok(counts) => put(out, counts),
        Err(f) => answers::give(out, f.into()),
    }
}
