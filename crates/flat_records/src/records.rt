// A record and its words.
ghost use Rattle.std.specs.Prelude.{length, [], ◌∷◌, ◌++◌, ◌≡◌};
ghost use Rattle.strip_records.specs.Whole.{pan1, pic1, txt1, wnd1, ali1};
ghost use Rattle.flat.specs.Lent.{Stores};
ghost use Rattle.flat.specs.Base.{base_words};
ghost use Rattle.pane_read.specs.declared.Pane.{Pane};
ghost use Rattle.strip_records.specs.declared.record.Record.{Record};
ghost use Rattle.flat_records.specs.Records.{kind_number, kind_of, kind_at, record_words};

use alignment_fields::AlignmentPane;
use flat::words::WordsMut;
use flat::{base, layout};
use flat_kinds::{ali1, pic1, wnd1};
use flat_text_box::txt1;
use pane_read::Pane;
use picture_fields::PicturePane;
use strip_records::kind::Kind;
use text_box_read::TextBoxPane;
use window_read::WindowPane;

// The kind that a number names, if it names one. No TryFrom<u64>: Kind is of strip_records, and these numbers are of the words alone.
pub fn kind_at(n: u64) -> Option<Kind>
    ensures { result ≡ kind_at n }
{
    match n {
        0 => Some(Kind::Pan1),
        1 => Some(Kind::Pic1),
        2 => Some(Kind::Txt1),
        3 => Some(Kind::Wnd1),
        4 => Some(Kind::Ali1),
        _ => None,
    }
}

// An unknown number reads as the last.
pub fn kind_of(n: u64) -> Kind
    ensures { result ≡ kind_of n }
{
    match n {
        0 => Kind::Pan1,
        1 => Kind::Pic1,
        2 => Kind::Txt1,
        3 => Kind::Wnd1,
        _ => Kind::Ali1,
    }
}

// The number of a kind.
pub fn kind_number(kind: Kind) -> u64
    ensures { result ≡ kind_number kind }
{
    match kind {
        Kind::Pan1 => 0,
        Kind::Pic1 => 1,
        Kind::Txt1 => 2,
        Kind::Wnd1 => 3,
        Kind::Ali1 => 4,
    }
}

// ---- stored: the kind, the base and the kind's own words

// The number of the kind, and the base.
fn put_front<'a, 's>(out: &'s mut WordsMut<'a>, kind: Kind, base: Pane)
    ensures { Stores out.old out.new 0 ((kind_number kind ∷ []) ++ base_words base) × (length (base_words base) ≡ 61) }
{
    out.set(layout::KIND, kind_number(kind));
    base::put_base(out, base);
}

// What a kind has beyond the base.
pub trait Own: Copy {
    // the record of its kind with a base
    ghost of_kind: { Pane → Self → Record };

    // The words of that record, from the front on.
    fn put<'a, 's>(self, base: Pane, out: &'s mut WordsMut<'a>)
        ensures { Stores out.old out.new 0 (record_words (of_kind base self)) };
}

impl Own for () {
    ghost of_kind = { λ base own. pan1 base };

    fn put<'a, 's>(self, base: Pane, out: &'s mut WordsMut<'a>) {
        put_front(out, Kind::Pan1, base);
    }
}

impl Own for PicturePane {
    ghost of_kind = { pic1 };

    fn put<'a, 's>(self, base: Pane, out: &'s mut WordsMut<'a>) {
        put_front(out, Kind::Pic1, base);
        pic1::put_picture(out, self);
    }
}

impl Own for TextBoxPane {
    ghost of_kind = { txt1 };

    fn put<'a, 's>(self, base: Pane, out: &'s mut WordsMut<'a>) {
        put_front(out, Kind::Txt1, base);
        txt1::put_text_box(out, self);
    }
}

impl Own for WindowPane {
    ghost of_kind = { wnd1 };

    fn put<'a, 's>(self, base: Pane, out: &'s mut WordsMut<'a>) {
        put_front(out, Kind::Wnd1, base);
        wnd1::put_window(out, self);
    }
}

impl Own for AlignmentPane {
    ghost of_kind = { ali1 };

    fn put<'a, 's>(self, base: Pane, out: &'s mut WordsMut<'a>) {
        put_front(out, Kind::Ali1, base);
        ali1::put_alignment(out, self);
    }
}
