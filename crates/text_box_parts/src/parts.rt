// The parts of a text box that offsets point to, read: text, label and line table. Each read goes back to the end of the fixed bytes.
ghost use Rattle.std.specs.Prelude.{◌≡◌, ℕ, ◌+◌, ◌*◌, ◌^◌, ◌≤◌, ◌<◌, length};
ghost use Rattle.core_checks.specs.Answered.{Lets};
ghost use Rattle.core_read.specs.Bytes.{Room};
ghost use Rattle.core_read.specs.Lists.{numbers_at};
ghost use Rattle.core_read.specs.Steps.{Took};
ghost use Rattle.core_read.specs.Taken.{over};
ghost use Rattle.text_box_parts.specs.Parts.{place_of, text_of, text_at, text_taken, label_at, label_taken, lines_at, lines_taken, per_character_checked, pairs, units_of, lines_of};

use crate::{Span, Text};
use core_read::error::Refusal;
use core_read::reader::{Reader, Source};

// Whether there is a text, and where its units stand.
#[derive(Clone, Copy)]
pub struct TextFound {
    pub text: Text,
    pub place: usize,
}

// How many lines there are, and where the table stands.
#[derive(Clone, Copy)]
pub struct LinesFound {
    pub table: Option<u8>,
    pub place: usize,
}

// The place of an offset.
pub fn place_of(body: usize, offset: u32) -> usize
    requires { (8 ≤ body) × (body < 2 ^ 32) }
    ensures { result ≡ place_of body offset }
{
    body - 8 + offset as usize
}

// ---- text

fn text_of(source: Source, at: usize, n: usize) -> Text
    requires { Room source.«data».now at (2 * n) }
    ensures { result ≡ text_of (numbers_at source.entry.order 2 n source.entry.«data».now at) }
{
    let formed = crate::units::well_formed_at(source, at, n);
    if formed { Text::Present } else { Text::Absent }
}

#[tactic(auto, using(core_read::proofs::Lists::numbers_stay), unfolding(crate::specs::Parts::text_at, core_checks::specs::Checks::unless_refused, core_read::specs::Taken::sought))]
fn text_at<'a, 's>(
    r: &'s mut Reader<'a>,
    at: usize,
    n: usize,
    end: usize,
) -> Result<TextFound, Refusal>
    ensures { Took r.old r.new result (λ order s p. text_at order s p at n end) }
{
    r.seek(at)?;
    r.pass::<u16>(n)?;
    r.seek(end)?;
    let text = text_of(r.source, at, n);
    Ok(TextFound { text, place: at })
}

#[tactic(auto, unfolding(crate::specs::Parts::text_taken))]
pub fn take_text<'a, 's>(
    r: &'s mut Reader<'a>,
    body: usize,
    offset: u32,
    text_length: u16,
) -> Result<TextFound, Refusal>
    requires { (8 ≤ body) × (body < 2 ^ 32) }
    ensures { Took r.old r.new result (λ order s p. text_taken order s p body offset text_length) }
{
    if offset == 0 {
        return Ok(TextFound {
            text: Text::Absent,
            place: 0,
        });
    }
    let at = place_of(body, offset);
    text_at(r, at, (text_length / 2) as usize, body + 160)
}

// ---- label

#[tactic(auto, unfolding(crate::specs::Parts::label_at, core_read::specs::Taken::label_taken, core_read::specs::Taken::sought))]
fn label_at<'a, 's>(r: &'s mut Reader<'a>, at: usize, end: usize) -> Result<Option<Span>, Refusal>
    ensures { Took r.old r.new result (λ order s p. label_at s p at end) }
{
    r.seek(at)?;
    let length = r.label()?;
    r.seek(end)?;
    Ok(Some(Span { place: at, length }))
}

#[tactic(auto, unfolding(crate::specs::Parts::label_taken))]
pub fn take_label<'a, 's>(
    r: &'s mut Reader<'a>,
    body: usize,
    offset: u32,
) -> Result<Option<Span>, Refusal>
    requires { (8 ≤ body) × (body < 2 ^ 32) }
    ensures { Took r.old r.new result (λ order s p. label_taken s p body offset) }
{
    if offset == 0 {
        return Ok(None);
    }
    let at = place_of(body, offset);
    label_at(r, at, body + 160)
}

// ---- line table

#[tactic(auto, using(core_read::proofs::Lists::numbers_stay), unfolding(crate::specs::Parts::lines_at, core_read::specs::Taken::number_taken, core_read::specs::Taken::sought))]
fn lines_at<'a, 's>(r: &'s mut Reader<'a>, at: usize, end: usize) -> Result<LinesFound, Refusal>
    ensures { Took r.old r.new result (λ order s p. lines_at order s p at end) }
{
    r.seek(at)?;
    let count: u8 = r.number()?;
    r.pass::<u32>(count as usize)?;
    r.pass::<u32>(count as usize)?;
    r.seek(end)?;
    Ok(LinesFound {
        table: Some(count),
        place: at,
    })
}

#[tactic(auto, unfolding(crate::specs::Parts::lines_taken))]
pub fn take_lines<'a, 's>(
    r: &'s mut Reader<'a>,
    body: usize,
    line: bool,
    offset: u32,
) -> Result<LinesFound, Refusal>
    requires { (8 ≤ body) × (body < 2 ^ 32) }
    ensures { Took r.old r.new result (λ order s p. lines_taken order s p body line offset) }
{
    if line && offset != 0 {
        let at = place_of(body, offset);
        return lines_at(r, at, body + 160);
    }
    Ok(LinesFound {
        table: None,
        place: 0,
    })
}

// 6
#[tactic(auto, unfolding(crate::specs::Parts::per_character_checked, core_read::specs::Taken::stop_if))]
pub fn per_character_checked(each: bool, offset: u32) -> Result<(), Refusal>
    ensures { Lets result (λ p. per_character_checked p each offset) }
{
    if each && offset != 0 {
        return Err(Refusal::PerCharacter {
            value: offset as usize,
        });
    }
    Ok(())
}

// ---- filled

// The numbers of two columns as pairs at the front of a list.
// By place: `out[..2 * n].as_chunks_mut::<2>()` with `iter_mut().enumerate()` was tried, and `chunks_exact_mut(2)` in a zip of the columns. std says nothing of what a slice ends as once its chunks were lent, so the goal `returns` stays open.
fn fill_pairs(source: Source, at: usize, n: usize, out: &mut [u32])
    requires { Room source.«data».now at (8 * n) × (2 * n ≤ length out.old) }
    ensures { out.new ≡ over (pairs (numbers_at source.entry.order 4 n source.entry.«data».now at) (numbers_at source.entry.order 4 n source.entry.«data».now (at + 4 * n))) out.old }
{
    for i in 0..n {
        out[2 * i] = source.number_at(at + 4 * i);
        out[2 * i + 1] = source.number_at(at + 4 * n + 4 * i);
    }
}

pub fn fill_units(source: Source, found: TextFound, n: usize, units: &mut [u16])
    requires { (found.text ≡ Text.Present → Room source.«data».now found.place (2 * n)) × (n ≤ length units.old) }
    ensures { units.new ≡ over (units_of found.text (numbers_at source.entry.order 2 n source.entry.«data».now found.place)) units.old }
{
    match found.text {
        Text::Absent => {}
        Text::Present => source.fill_u16s(found.place, n, units),
    }
}

pub fn fill_lines(source: Source, found: LinesFound, lines: &mut [u32])
    requires { ((count : ℕ) → found.table ≡ Some count → Room source.«data».now (found.place + 1) (8 * count)) × (510 ≤ length lines.old) }
    ensures { lines.new ≡ over (lines_of source.entry.order source.entry.«data».now found.table found.place) lines.old }
{
    match found.table {
        None => {}
        Some(count) => fill_pairs(source, found.place + 1, count as usize, lines),
    }
}
