// The body of a pane of any kind: measured, which lends no list, or read into the lists that it takes.
ghost use Rattle.std.specs.Prelude.{◌≡◌, ◌^◌, ◌≤◌, ◌<◌, Ok};
ghost use Rattle.strip_records.specs.Held.{held, Filled};
ghost use Rattle.strip_records.specs.Whole.{Full, pan1, pic1, txt1, wnd1, ali1};
ghost use Rattle.strip_kinds.specs.Body.{body_read, body_lists};

use alignment_fields::AlignmentPane;
use core_read::cursor::Cursor;
use core_read::error::Refusal;
use core_read::reader::Reader;
use pane_read::parsed::Parsed;
use picture_fields::PicturePane;
use strip_records::kind::Kind;
use strip_records::lists::Lists;
use strip_records::record::{Record, blank_record};
use text_box_read::TextBoxPane;
use window_read::WindowPane;

// What a body read gives. The answer stands beside the record, which is blank where it was refused, as document 01 has it.
#[derive(Clone, Copy)]
pub struct BodyRead {
    pub answer: Result<Cursor, Refusal>,
    pub record: Record,
}

// ---- what a body read of a kind gives, as a record; what the other kinds have is blank

impl From<Parsed<()>> for BodyRead {
    ghost from_gives = { λ read b. (b.answer ≡ read.answer) × (b.«record» ≡ pan1 read.base) };

    #[tactic(auto, unfolding(strip_records::specs::Whole::blank_record))]
    fn from(read: Parsed<()>) -> BodyRead {
        BodyRead {
            answer: read.answer,
            record: Record {
                kind: Kind::Pan1,
                base: read.base,
                ..blank_record()
            },
        }
    }
}

impl From<Parsed<PicturePane>> for BodyRead {
    ghost from_gives = { λ read b. (b.answer ≡ read.answer) × (b.«record» ≡ pic1 read.base read.own) };

    #[tactic(auto, unfolding(strip_records::specs::Whole::blank_record))]
    fn from(read: Parsed<PicturePane>) -> BodyRead {
        BodyRead {
            answer: read.answer,
            record: Record {
                kind: Kind::Pic1,
                base: read.base,
                picture: read.own,
                ..blank_record()
            },
        }
    }
}

impl From<Parsed<TextBoxPane>> for BodyRead {
    ghost from_gives = { λ read b. (b.answer ≡ read.answer) × (b.«record» ≡ txt1 read.base read.own) };

    #[tactic(auto, unfolding(strip_records::specs::Whole::blank_record))]
    fn from(read: Parsed<TextBoxPane>) -> BodyRead {
        BodyRead {
            answer: read.answer,
            record: Record {
                kind: Kind::Txt1,
                base: read.base,
                text_box: read.own,
                ..blank_record()
            },
        }
    }
}

impl From<Parsed<WindowPane>> for BodyRead {
    ghost from_gives = { λ read b. (b.answer ≡ read.answer) × (b.«record» ≡ wnd1 read.base read.own) };

    #[tactic(auto, unfolding(strip_records::specs::Whole::blank_record))]
    fn from(read: Parsed<WindowPane>) -> BodyRead {
        BodyRead {
            answer: read.answer,
            record: Record {
                kind: Kind::Wnd1,
                base: read.base,
                window: read.own,
                ..blank_record()
            },
        }
    }
}

impl From<Parsed<AlignmentPane>> for BodyRead {
    ghost from_gives = { λ read b. (b.answer ≡ read.answer) × (b.«record» ≡ ali1 read.base read.own) };

    #[tactic(auto, unfolding(strip_records::specs::Whole::blank_record))]
    fn from(read: Parsed<AlignmentPane>) -> BodyRead {
        BodyRead {
            answer: read.answer,
            record: Record {
                kind: Kind::Ali1,
                base: read.base,
                alignment: read.own,
                ..blank_record()
            },
        }
    }
}

// ---- by the kind

// The body of a kind, with no list lent.
#[tactic(auto, unfolding(crate::specs::Body::body_read))]
pub fn measure_kind<'a>(r: Reader<'a>, kind: Kind, body: usize, extent: Option<usize>) -> BodyRead
    requires { (8 ≤ body) × (body < 2 ^ 32) }
    ensures { result ≡ body_read r.entry.source.order kind r.entry.source.«data».now (Ok r.entry.cursor) body extent }
{
    match kind {
        Kind::Pan1 => pane::body::read(r, body, extent).into(),
        Kind::Pic1 => picture::body::measured(r, body, extent).into(),
        Kind::Txt1 => text_box::body::measured(r, body, extent).into(),
        Kind::Wnd1 => window::body::measured(r, body, extent).into(),
        Kind::Ali1 => alignment::body::read(r, body, extent).into(),
    }
}

// The body of a kind, and its numbers into the lists that it takes.
#[tactic(auto, unfolding(crate::specs::Body::body_read, crate::specs::Body::body_lists))]
pub fn read_kind<'a, 'l, 's>(
    r: Reader<'a>,
    kind: Kind,
    body: usize,
    extent: Option<usize>,
    lists: &'s mut Lists<'l>,
) -> BodyRead
    requires { (8 ≤ body) × (body < 2 ^ 32) × Full (held lists.old) }
    ensures value { result ≡ body_read r.entry.source.order kind r.entry.source.«data».now (Ok r.entry.cursor) body extent }
    ensures lists_after { Filled lists.old lists.new (body_lists r.entry.source.order kind r.entry.source.«data».now (Ok r.entry.cursor) body extent (held lists.old)) }
{
    match kind {
        Kind::Pic1 => picture::body::read(r, body, extent, lists.quads).into(),
        Kind::Txt1 => text_box::body::read(r, body, extent, lists.units, lists.lines).into(),
        Kind::Wnd1 => window::body::read(r, body, extent, lists.quads, lists.frames).into(),
        _ => measure_kind(r, kind, body, extent),
    }
}
