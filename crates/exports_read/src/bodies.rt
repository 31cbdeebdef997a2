// The body call by kind, into words: a function for each kind, as in `sections`.
ghost use Rattle.std.specs.Prelude.{◌≡◌, []};
ghost use Rattle.picture.specs.Body.{quads_parsed};
ghost use Rattle.window.specs.Body.{parsed_quads, parsed_frames};
ghost use Rattle.strip_kinds.specs.Body.{units_parsed, lines_parsed, lists_parsed};
ghost use Rattle.strip_records.specs.Held.{held, Filled};
ghost use Rattle.strip_records.specs.Whole.{Lists as ListsOf, lists as lists_of};
ghost use Rattle.exports_answers.specs.Answers.{section_answer};
ghost use Rattle.exports_read.specs.Outcomes.{read_outcome, delivered, body_finished};

use crate::deliver::deliver;
use core_read::error::Refusal;
use core_read::reader::Source;
use flat::words::WordsMut;
use strip_header::Section;
use strip_records::kind::Kind;
use strip_records::lists::Lists;

#[tactic(auto, unfolding(crate::specs::Outcomes::body_finished, strip_kinds::specs::Body::body_parsed))]
fn parse_pan1<'a, 'w, 's>(
    source: Source<'a>,
    place: usize,
    words: &'s mut WordsMut<'w>,
) -> Result<Section, Refusal>
    ensures same_record { words.new.words.ghost_name ≡ words.old.words.ghost_name }
    ensures delivered { (l : ListsOf) → read_outcome (section_answer result) words.new.words.now l ≡ delivered (body_finished source.entry.order Kind.Pan1 source.entry.«data».now place (lists_of [] [] [] [])) words.old.words.now l }
{
    deliver(words, 0, pane::parse(source, place))
}

#[tactic(auto, unfolding(crate::specs::Outcomes::body_finished, strip_kinds::specs::Body::body_parsed))]
fn parse_pic1<'a, 'w, 's>(
    source: Source<'a>,
    place: usize,
    quads: &mut [u32],
    words: &'s mut WordsMut<'w>,
) -> Result<Section, Refusal>
    ensures same_record { words.new.words.ghost_name ≡ words.old.words.ghost_name }
    ensures quads_after { quads.new ≡ quads_parsed source.entry.order source.entry.«data».now place quads.old }
    ensures delivered { (l : ListsOf) → read_outcome (section_answer result) words.new.words.now l ≡ delivered (body_finished source.entry.order Kind.Pic1 source.entry.«data».now place (lists_of quads.old [] [] [])) words.old.words.now l }
{
    let read = picture::parse(source, place, quads);
    deliver(words, 0, read)
}

#[tactic(auto, unfolding(crate::specs::Outcomes::body_finished, strip_kinds::specs::Body::body_parsed))]
fn parse_txt1<'a, 'w, 's>(
    source: Source<'a>,
    place: usize,
    units: &mut [u16],
    lines: &mut [u32],
    words: &'s mut WordsMut<'w>,
) -> Result<Section, Refusal>
    ensures same_record { words.new.words.ghost_name ≡ words.old.words.ghost_name }
    ensures units_after { units.new ≡ units_parsed source.entry.order source.entry.«data».now place units.old lines.old }
    ensures lines_after { lines.new ≡ lines_parsed source.entry.order source.entry.«data».now place units.old lines.old }
    ensures delivered { (l : ListsOf) → read_outcome (section_answer result) words.new.words.now l ≡ delivered (body_finished source.entry.order Kind.Txt1 source.entry.«data».now place (lists_of [] units.old lines.old [])) words.old.words.now l }
{
    let read = text_box::parse(source, place, units, lines);
    deliver(words, 0, read)
}

#[tactic(auto, unfolding(crate::specs::Outcomes::body_finished, strip_kinds::specs::Body::body_parsed))]
fn parse_wnd1<'a, 'w, 's>(
    source: Source<'a>,
    place: usize,
    quads: &mut [u32],
    frames: &mut [u16],
    words: &'s mut WordsMut<'w>,
) -> Result<Section, Refusal>
    ensures same_record { words.new.words.ghost_name ≡ words.old.words.ghost_name }
    ensures quads_after { quads.new ≡ parsed_quads source.entry.order source.entry.«data».now place quads.old frames.old }
    ensures frames_after { frames.new ≡ parsed_frames source.entry.order source.entry.«data».now place quads.old frames.old }
    ensures delivered { (l : ListsOf) → read_outcome (section_answer result) words.new.words.now l ≡ delivered (body_finished source.entry.order Kind.Wnd1 source.entry.«data».now place (lists_of quads.old [] [] frames.old)) words.old.words.now l }
{
    let read = window::parse(source, place, quads, frames);
    deliver(words, 0, read)
}

#[tactic(auto, unfolding(crate::specs::Outcomes::body_finished, strip_kinds::specs::Body::body_parsed))]
fn parse_ali1<'a, 'w, 's>(
    source: Source<'a>,
    place: usize,
    words: &'s mut WordsMut<'w>,
) -> Result<Section, Refusal>
    ensures same_record { words.new.words.ghost_name ≡ words.old.words.ghost_name }
    ensures delivered { (l : ListsOf) → read_outcome (section_answer result) words.new.words.now l ≡ delivered (body_finished source.entry.order Kind.Ali1 source.entry.«data».now place (lists_of [] [] [] [])) words.old.words.now l }
{
    deliver(words, 0, alignment::parse(source, place))
}

#[tactic(auto, unfolding(crate::specs::Outcomes::body_finished, strip_kinds::specs::Body::body_parsed, strip_kinds::specs::Body::lists_parsed))]
pub(crate) fn parse_kind<'a, 'l, 't, 'w, 's>(
    source: Source<'a>,
    kind: Kind,
    place: usize,
    lists: &'t mut Lists<'l>,
    words: &'s mut WordsMut<'w>,
) -> Result<Section, Refusal>
    ensures same_record { words.new.words.ghost_name ≡ words.old.words.ghost_name }
    ensures lists_after { Filled lists.old lists.new (lists_parsed source.entry.order kind source.entry.«data».now place (held lists.old)) }
    ensures delivered { read_outcome (section_answer result) words.new.words.now (held lists.new) ≡ delivered (body_finished source.entry.order kind source.entry.«data».now place (held lists.old)) words.old.words.now (held lists.new) }
{
    match kind {
        Kind::Pan1 => parse_pan1(source, place, words),
        Kind::Pic1 => parse_pic1(source, place, lists.quads, words),
        Kind::Txt1 => parse_txt1(source, place, lists.units, lists.lines, words),
        Kind::Wnd1 => parse_wnd1(source, place, lists.quads, lists.frames, words),
        Kind::Ali1 => parse_ali1(source, place, words),
    }
}
