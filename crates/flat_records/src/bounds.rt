// The bounds that the words of a record stay below. Counts, label place and label length have none: a write does not read them.
ghost use Rattle.std.specs.Prelude.{◌≡◌, ◌+◌, ◌≤◌, length, IsTrue, nat_le, position};
ghost use Rattle.flat_records.specs.Below.{good, scanned, or_scanned, checked_by, base_bounds, own_checked, all_within};

use flat::layout;
use flat::words::{BadWord, Words};
use strip_records::kind::Kind;

// From a place on so many words, and what they stay below.
pub type Bound = (usize, usize, u64);

const BASE: [Bound; 9] = [
    (layout::KIND, 1, 5),
    (layout::PANE_FLAGS, 8, 2),
    (layout::POSITION, 4, 3),
    (layout::ALPHA, 1, 256),
    (layout::FLAG_EX, 3, 2),
    (layout::RESERVE0, 1, 256),
    (layout::NAME, 24, 256),
    (layout::USER, 8, 256),
    (layout::TRANSLATION, 10, 4_294_967_296),
];

const PICTURE: [Bound; 4] = [
    (layout::PICTURE_COLORS, 16, 256),
    (layout::PICTURE_MATERIAL, 1, 65_536),
    (layout::SHAPE_PRESENT, 1, 2),
    (layout::SHAPE_INDEX, 1, 4_294_967_296),
];

const TEXT_BOX: [Bound; 11] = [
    (layout::TEXT_BUFFER_SIZE, 4, 65_536),
    (layout::ORIGIN, 2, 3),
    (layout::TEXT_ALIGNMENT, 1, 4),
    (layout::TEXT_FLAGS, 15, 2),
    (layout::MEASURE, 3, 4_294_967_296),
    (layout::FONT_TOP_COLOR, 8, 256),
    (layout::CHARACTER_SPACE, 6, 4_294_967_296),
    (layout::SHADOW_TOP_COLOR, 8, 256),
    (layout::SHADOW_ITALIC_TILT, 1, 4_294_967_296),
    (layout::TEXT_PRESENT, 2, 2),
    (layout::LINES_PRESENT, 1, 2),
];

const WINDOW: [Bound; 6] = [
    (layout::INFLATION, 8, 65_536),
    (layout::WINDOW_FLAGS, 2, 2),
    (layout::WINDOW_KIND, 1, 3),
    (layout::NOT_DRAW_CONTENT, 1, 2),
    (layout::CONTENT_COLORS, 16, 256),
    (layout::CONTENT_MATERIAL, 1, 65_536),
];

const ALIGNMENT: [Bound; 2] = [
    (layout::DIRECTION, 2, 4_294_967_296),
    (layout::IS_ALIGN_LAST_PANE, 2, 2),
];

fn first_not_below(words: &[u64], bound: u64) -> Option<usize>
    ensures { result ≡ position (λ x. nat_le bound x) words.now }
{
    words.iter().position(|word| bound <= *word)
}

// The first of so many words from a place on that is not below the bound.
pub fn below(w: &[u64], from: usize, count: usize, bound: u64) -> Result<(), BadWord>
    requires { from + count ≤ length w.now }
    ensures { result ≡ scanned w.now from count bound }
{
    match first_not_below(&w[from..from + count], bound) {
        Some(i) => Err(BadWord { index: from + i }),
        None => Ok(()),
    }
}

// The same, unless a word before them is bad.
#[tactic(auto, unfolding(crate::specs::Below::or_scanned))]
pub fn or_below(
    before: Result<(), BadWord>,
    w: &[u64],
    from: usize,
    count: usize,
    bound: u64,
) -> Result<(), BadWord>
    requires { from + count ≤ length w.now }
    ensures { result ≡ or_scanned before w.now from count bound }
{
    match before {
        Ok(()) => below(w, from, count, bound),
        Err(bad) => Err(bad),
    }
}

// The first word that is not below its bound, in the order of the bounds.
pub fn all_below(w: Words, bounds: &[Bound]) -> Result<(), BadWord>
    requires { IsTrue (all_within bounds.now) }
    ensures { result ≡ checked_by good bounds.now w.entry.words.now }
{
    for (from, count, bound) in bounds {
        below(w.words, *from, *count, *bound)?;
    }
    Ok(())
}

// The words of the base, then those of the kind. Not inlined: the words would be kept from here on for the fields that are made of them later, and be put by meanwhile.
#[inline(never)]
pub fn words_checked(w: Words, kind: Kind) -> Result<(), BadWord>
    ensures { result ≡ own_checked kind (checked_by good base_bounds w.entry.words.now) w.entry.words.now }
{
    all_below(w, &BASE)?;
    match kind {
        Kind::Pan1 => Ok(()),
        Kind::Pic1 => all_below(w, &PICTURE),
        Kind::Txt1 => all_below(w, &TEXT_BOX),
        Kind::Wnd1 => all_below(w, &WINDOW),
        Kind::Ali1 => all_below(w, &ALIGNMENT),
    }
}
