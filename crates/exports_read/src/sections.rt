// The body of a section by kind, into words. Each kind has a function of its own: what a function keeps is cleared where it begins, so that one for all five would clear what four of them keep for nothing.
ghost use Rattle.std.specs.Prelude.{◌^◌, ◌≤◌, ◌<◌, ◌≡◌, length, Ok, Some};
ghost use Rattle.picture.specs.Body.{quads_read};
ghost use Rattle.text_box.specs.Body.{units_after, lines_after};
ghost use Rattle.window.specs.Body.{read_quads, read_frames};
ghost use Rattle.strip_kinds.specs.Body.{body_lists};
ghost use Rattle.strip_read.specs.Read.{read_body};
ghost use Rattle.strip_records.specs.Held.{held, Filled};
ghost use Rattle.strip_records.specs.Whole.{Lists as ListsOf, Full};
ghost use Rattle.exports_answers.specs.Answers.{section_answer};
ghost use Rattle.exports_read.specs.Outcomes.{read_outcome, delivered};

use crate::deliver::deliver_pane;
use core_read::error::Refusal;
use core_read::reader::Reader;
use flat::words::WordsMut;
use strip_header::Section;
use strip_records::kind::Kind;
use strip_records::lists::Lists;

#[tactic(auto, unfolding(strip_read::specs::Read::read_body, strip_read::specs::Read::finished, strip_read::specs::Read::refused_with, crate::specs::Outcomes::delivered, strip_kinds::specs::Body::body_read, core_checks::specs::Checks::unless_refused, pane::specs::Body::pane_read, pane::specs::Body::pane_given))]
fn read_pan1<'a, 'w, 's>(
    mut r: Reader<'a>,
    body: usize,
    next: usize,
    words: &'s mut WordsMut<'w>,
) -> Result<Section, Refusal>
    requires { body < 2 ^ 32 }
    ensures same_record { words.new.words.ghost_name ≡ words.old.words.ghost_name }
    ensures delivered { (l : ListsOf) → read_outcome (section_answer result) words.new.words.now l ≡ delivered (read_body r.entry.source.order Kind.Pan1 r.entry.source.«data».now (Ok r.entry.cursor) body next) words.old.words.now l }
{
    let base = pane::body::measure(&mut r, body, Some(next))?;
    Ok(deliver_pane(words, next, r.cursor, base, ()))
}

#[tactic(auto, unfolding(strip_read::specs::Read::read_body, strip_read::specs::Read::finished, strip_read::specs::Read::refused_with, crate::specs::Outcomes::delivered, strip_kinds::specs::Body::body_read, core_checks::specs::Checks::unless_refused, picture::specs::Body::picture_read, picture::specs::Body::picture_given, picture::specs::Body::quads_read, picture::specs::Body::quads_filled))]
fn read_pic1<'a, 'w, 's>(
    mut r: Reader<'a>,
    body: usize,
    next: usize,
    quads: &mut [u32],
    words: &'s mut WordsMut<'w>,
) -> Result<Section, Refusal>
    requires { (body < 2 ^ 32) × (2040 ≤ length quads.old) }
    ensures same_record { words.new.words.ghost_name ≡ words.old.words.ghost_name }
    ensures quads_after { quads.new ≡ quads_read r.entry.source.order r.entry.source.«data».now (Ok r.entry.cursor) body (Some next) quads.old }
    ensures delivered { (l : ListsOf) → read_outcome (section_answer result) words.new.words.now l ≡ delivered (read_body r.entry.source.order Kind.Pic1 r.entry.source.«data».now (Ok r.entry.cursor) body next) words.old.words.now l }
{
    let m = picture::body::measure(&mut r, body, Some(next))?;
    picture::body::fill(r.source, m, quads);
    Ok(deliver_pane(words, next, r.cursor, m.base, m.own.picture))
}

#[tactic(auto, unfolding(strip_read::specs::Read::read_body, strip_read::specs::Read::finished, strip_read::specs::Read::refused_with, crate::specs::Outcomes::delivered, strip_kinds::specs::Body::body_read, core_checks::specs::Checks::unless_refused, text_box::specs::Body::text_box_read, text_box::specs::Body::text_box_given, text_box::specs::Body::units_after, text_box::specs::Body::lines_after, text_box::specs::Body::units_filled, text_box::specs::Body::lines_filled))]
fn read_txt1<'a, 'w, 's>(
    mut r: Reader<'a>,
    body: usize,
    next: usize,
    units: &mut [u16],
    lines: &mut [u32],
    words: &'s mut WordsMut<'w>,
) -> Result<Section, Refusal>
    requires { (8 ≤ body) × (body < 2 ^ 32) × (32767 ≤ length units.old) × (510 ≤ length lines.old) }
    ensures same_record { words.new.words.ghost_name ≡ words.old.words.ghost_name }
    ensures units_after { units.new ≡ units_after r.entry.source.order r.entry.source.«data».now (Ok r.entry.cursor) body (Some next) units.old }
    ensures lines_after { lines.new ≡ lines_after r.entry.source.order r.entry.source.«data».now (Ok r.entry.cursor) body (Some next) lines.old }
    ensures delivered { (l : ListsOf) → read_outcome (section_answer result) words.new.words.now l ≡ delivered (read_body r.entry.source.order Kind.Txt1 r.entry.source.«data».now (Ok r.entry.cursor) body next) words.old.words.now l }
{
    let m = text_box::body::measure(&mut r, body, Some(next))?;
    text_box::body::fill(r.source, m, units, lines);
    Ok(deliver_pane(words, next, r.cursor, m.base, m.own.text_box))
}

#[tactic(auto, unfolding(strip_read::specs::Read::read_body, strip_read::specs::Read::finished, strip_read::specs::Read::refused_with, crate::specs::Outcomes::delivered, strip_kinds::specs::Body::body_read, core_checks::specs::Checks::unless_refused, window::specs::Body::window_read, window::specs::Body::window_given, window::specs::Body::read_quads, window::specs::Body::read_frames, window::specs::Body::quads_filled, window::specs::Body::frames_filled))]
fn read_wnd1<'a, 'w, 's>(
    mut r: Reader<'a>,
    body: usize,
    next: usize,
    quads: &mut [u32],
    frames: &mut [u16],
    words: &'s mut WordsMut<'w>,
) -> Result<Section, Refusal>
    requires { (8 ≤ body) × (body < 2 ^ 32) × (2040 ≤ length quads.old) × (510 ≤ length frames.old) }
    ensures same_record { words.new.words.ghost_name ≡ words.old.words.ghost_name }
    ensures quads_after { quads.new ≡ read_quads r.entry.source.order r.entry.source.«data».now (Ok r.entry.cursor) body (Some next) quads.old }
    ensures frames_after { frames.new ≡ read_frames r.entry.source.order r.entry.source.«data».now (Ok r.entry.cursor) body (Some next) frames.old }
    ensures delivered { (l : ListsOf) → read_outcome (section_answer result) words.new.words.now l ≡ delivered (read_body r.entry.source.order Kind.Wnd1 r.entry.source.«data».now (Ok r.entry.cursor) body next) words.old.words.now l }
{
    let m = window::body::measure(&mut r, body, Some(next))?;
    window::body::fill(r.source, m, body, quads, frames);
    Ok(deliver_pane(words, next, r.cursor, m.base, m.own.window))
}

#[tactic(auto, unfolding(strip_read::specs::Read::read_body, strip_read::specs::Read::finished, strip_read::specs::Read::refused_with, crate::specs::Outcomes::delivered, strip_kinds::specs::Body::body_read, core_checks::specs::Checks::unless_refused, alignment::specs::Body::alignment_read, alignment::specs::Body::alignment_given))]
fn read_ali1<'a, 'w, 's>(
    mut r: Reader<'a>,
    body: usize,
    next: usize,
    words: &'s mut WordsMut<'w>,
) -> Result<Section, Refusal>
    requires { body < 2 ^ 32 }
    ensures same_record { words.new.words.ghost_name ≡ words.old.words.ghost_name }
    ensures delivered { (l : ListsOf) → read_outcome (section_answer result) words.new.words.now l ≡ delivered (read_body r.entry.source.order Kind.Ali1 r.entry.source.«data».now (Ok r.entry.cursor) body next) words.old.words.now l }
{
    let m = alignment::body::measure(&mut r, body, Some(next))?;
    Ok(deliver_pane(words, next, r.cursor, m.base, m.own))
}

#[tactic(auto, unfolding(strip_read::specs::Read::read_body, strip_kinds::specs::Body::body_read, strip_kinds::specs::Body::body_lists))]
pub(crate) fn read_kind<'a, 'l, 't, 'w, 's>(
    r: Reader<'a>,
    kind: Kind,
    body: usize,
    next: usize,
    lists: &'t mut Lists<'l>,
    words: &'s mut WordsMut<'w>,
) -> Result<Section, Refusal>
    requires { (8 ≤ body) × (body < 2 ^ 32) × Full (held lists.old) }
    ensures same_record { words.new.words.ghost_name ≡ words.old.words.ghost_name }
    ensures lists_after { Filled lists.old lists.new (body_lists r.entry.source.order kind r.entry.source.«data».now (Ok r.entry.cursor) body (Some next) (held lists.old)) }
    ensures delivered { read_outcome (section_answer result) words.new.words.now (held lists.new) ≡ delivered (read_body r.entry.source.order kind r.entry.source.«data».now (Ok r.entry.cursor) body next) words.old.words.now (held lists.new) }
{
    match kind {
        Kind::Pan1 => read_pan1(r, body, next, words),
        Kind::Pic1 => read_pic1(r, body, next, lists.quads, words),
        Kind::Txt1 => read_txt1(r, body, next, lists.units, lists.lines, words),
        Kind::Wnd1 => read_wnd1(r, body, next, lists.quads, lists.frames, words),
        Kind::Ali1 => read_ali1(r, body, next, words),
    }
}
