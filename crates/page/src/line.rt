// The lines of the program `page`, each part a step of a writer. They go by the parts of crate `lines` and not by `write!`, for its reason.
ghost use Rattle.std.specs.Prelude.{◌+◌, ◌*◌, ◌≤◌, length};
ghost use Rattle.core_read.specs.Bytes.{part};
ghost use Rattle.core_read.specs.Refusals.{number_of, figure_a, figure_b, text_number};
ghost use Rattle.core_write.specs.Puts.{HasRoom, PutsText};
ghost use Rattle.page.specs.PageLine.{numbered, quoted, place_text, size_text, string_text, eof_text, ill_formed_text, section_size_text, past_section_text, sentence, pane_text, pass_text, refused_text, page_text, page_line};

use core_read::error::{CheckedText, Refusal};
use core_read::text::FixedString;
use core_write::writer::Writer;
use escapes::put_escaped;
use lines::{put_decimal, put_figure, put_refusal};
use strip::kind::Kind;
use strip::read::Section;

// ---- the parts of a line

// A number with a text before and after it.
fn put_number<'a, 's>(w: &'s mut Writer<'a>, before: &[u8], n: usize, after: &[u8])
    requires { HasRoom w.old (length before.now + 20 + length after.now) }
    ensures put { PutsText w.old w.new (numbered before.now n after.now) }
    ensures upper_bound { w.new.place ≤ w.old.place + (length before.now + 20 + length after.now) }
{
    w.put_bytes(before);
    put_decimal(w, n);
    w.put_bytes(after);
}

// `"TEXT"`
fn put_quoted<'a, 's>(w: &'s mut Writer<'a>, s: &[u8], all: bool)
    requires { HasRoom w.old (4 * length s.now + 2) }
    ensures put { PutsText w.old w.new (quoted all s.now) }
    ensures upper_bound { w.new.place ≤ w.old.place + 4 * length s.now + 2 }
{
    w.put_bytes(b"\"");
    put_escaped(w, s, all);
    w.put_bytes(b"\"");
}

// ` at PLACE`
fn put_place<'a, 's>(w: &'s mut Writer<'a>, place: usize)
    requires { HasRoom w.old 24 }
    ensures put { PutsText w.old w.new (place_text place) }
    ensures upper_bound { w.new.place ≤ w.old.place + 24 }
{
    w.put_bytes(b" at");
    put_figure(w, place);
}

// ` at PLACE, SIZE bytes`
fn put_size<'a, 's>(w: &'s mut Writer<'a>, place: usize, next: usize)
    requires { HasRoom w.old 52 }
    ensures put { PutsText w.old w.new (size_text place next) }
    ensures upper_bound { w.new.place ≤ w.old.place + 52 }
{
    put_place(w, place);
    w.put_bytes(b",");
    put_figure(w, next.saturating_sub(place));
    w.put_bytes(b" bytes");
}

// ---- the sentences

#[tactic(auto, unfolding(crate::specs::PageLine::string_text))]
fn put_string<'a, 's>(w: &'s mut Writer<'a>, which: CheckedText)
    requires { HasRoom w.old 9 }
    ensures put { PutsText w.old w.new (string_text (text_number which)) }
    ensures upper_bound { w.new.place ≤ w.old.place + 9 }
{
    match which {
        CheckedText::PaneName => w.put_bytes(b"pane name"),
        CheckedText::UserName => w.put_bytes(b"user name"),
        CheckedText::Label => w.put_bytes(b"label"),
    }
}

fn put_ill_formed<'a, 's>(w: &'s mut Writer<'a>, place: usize, which: CheckedText)
    requires { HasRoom w.old 120 }
    ensures put { PutsText w.old w.new (ill_formed_text place (text_number which)) }
    ensures upper_bound { w.new.place ≤ w.old.place + 120 }
{
    w.put_bytes(b"the ");
    put_string(w, which);
    w.put_bytes(b" at ");
    put_decimal(w, place);
    w.put_bytes(b" is ill-formed UTF-8");
}

fn put_eof<'a, 's>(w: &'s mut Writer<'a>, offset: usize, requested: usize)
    requires { HasRoom w.old 120 }
    ensures put { PutsText w.old w.new (eof_text offset requested) }
    ensures upper_bound { w.new.place ≤ w.old.place + 120 }
{
    w.put_bytes(b"the bytes run out: ");
    put_decimal(w, requested);
    w.put_bytes(b" asked for at ");
    put_decimal(w, offset);
}

fn put_section_size<'a, 's>(w: &'s mut Writer<'a>, place: usize, size: usize)
    requires { HasRoom w.old 120 }
    ensures put { PutsText w.old w.new (section_size_text place size) }
    ensures upper_bound { w.new.place ≤ w.old.place + 120 }
{
    w.put_bytes(b"the section size ");
    put_decimal(w, size);
    w.put_bytes(b" at ");
    put_decimal(w, place);
    w.put_bytes(b" is below 8, no multiple of 4, or passes the buffer");
}

fn put_past_section<'a, 's>(w: &'s mut Writer<'a>, reach: usize, end: usize)
    requires { HasRoom w.old 120 }
    ensures put { PutsText w.old w.new (past_section_text reach end) }
    ensures upper_bound { w.new.place ≤ w.old.place + 120 }
{
    w.put_bytes(b"the pane looks as far as ");
    put_decimal(w, reach);
    w.put_bytes(b", past the end of its section at ");
    put_decimal(w, end);
}

// What is wrong and where. A page is never too long, its places are multiples of 4 within it, the lists are full, and nothing is written: six refusals are left.
fn put_sentence<'a, 's>(w: &'s mut Writer<'a>, why: Refusal)
    requires { HasRoom w.old 120 }
    ensures put { PutsText w.old w.new (sentence (number_of why) (figure_a why) (figure_b why)) }
    ensures upper_bound { w.new.place ≤ w.old.place + 120 }
{
    match why {
        Refusal::UnexpectedEof { offset, requested } => put_eof(w, offset, requested),
        Refusal::NoNul { place } => {
            let after = b" meets no NUL before the end of the buffer";
            put_number(w, b"the label at ", place, after)
        }
        Refusal::PerCharacter { value } => {
            let before = b"the text box has a per-character transform at offset ";
            put_number(w, before, value, b", which is not read")
        }
        Refusal::IllFormedUtf8 { place, which } => put_ill_formed(w, place, which),
        Refusal::SectionSize { place, size } => put_section_size(w, place, size),
        Refusal::PastSection { reach, end } => put_past_section(w, reach, end),
        Refusal::TooLong { .. }
        | Refusal::BadPlace { .. }
        | Refusal::ShortList { .. }
        | Refusal::BadName { .. }
        | Refusal::Reserve0 { .. }
        | Refusal::ListLength { .. }
        | Refusal::BadFlip { .. }
        | Refusal::TextLength { .. }
        | Refusal::IllFormedUtf16 { .. }
        | Refusal::NoLineBit
        | Refusal::OutputEnd { .. } => w.put_bytes(b"no walk over a page gives this"),
    }
}

// ---- the lines, without their end

// `pan1 "NAME" at PLACE, SIZE bytes`
fn put_pane<'a, 's>(
    w: &'s mut Writer<'a>,
    kind: Kind,
    name: FixedString<24>,
    place: usize,
    next: usize,
)
    requires { HasRoom w.old 211 }
    ensures put { PutsText w.old w.new (pane_text kind name place next) }
    ensures upper_bound { w.new.place ≤ w.old.place + 211 }
{
    let bytes = name.bytes;
    let count = name.count;
    let n = count.min(24);
    let letters = kind.letters().to_le_bytes();
    w.put_bytes(&letters);
    w.put_bytes(b" ");
    put_quoted(w, &bytes[..n], false);
    put_size(w, place, next);
}

// `pass "LETTERS" at PLACE, SIZE bytes`; where letters were read, four bytes are there
fn put_passed<'a, 's>(w: &'s mut Writer<'a>, letters: &[u8], place: usize, next: usize)
    requires { (length letters.now ≤ 4) × HasRoom w.old 211 }
    ensures put { PutsText w.old w.new (pass_text letters.now place next) }
    ensures upper_bound { w.new.place ≤ w.old.place + 211 }
{
    w.put_bytes(b"pass ");
    put_quoted(w, letters, true);
    put_size(w, place, next);
}

// `no NUMBER a b at PLACE: SENTENCE`
fn put_refused<'a, 's>(w: &'s mut Writer<'a>, why: Refusal, place: usize)
    requires { HasRoom w.old 211 }
    ensures put { PutsText w.old w.new (refused_text why place) }
    ensures upper_bound { w.new.place ≤ w.old.place + 211 }
{
    put_refusal(w, why);
    put_place(w, place);
    w.put_bytes(b": ");
    put_sentence(w, why);
}

// The letters at a place, as many of the four as are there.
fn put_letters<'a, 's>(w: &'s mut Writer<'a>, strip: &[u8], place: usize, next: usize)
    requires { HasRoom w.old 211 }
    ensures put { PutsText w.old w.new (pass_text (part 4 strip.now place) place next) }
    ensures upper_bound { w.new.place ≤ w.old.place + 211 }
{
    let rest = &strip[place.min(strip.len())..];
    let n = rest.len().min(4);
    put_passed(w, &rest[..n], place, next);
}

fn put_text<'a, 's>(
    w: &'s mut Writer<'a>,
    strip: &[u8],
    place: usize,
    answer: Result<Section, Refusal>,
    kind: Kind,
    name: FixedString<24>,
)
    requires { HasRoom w.old 211 }
    ensures put { PutsText w.old w.new (page_text strip.now place answer kind name) }
    ensures upper_bound { w.new.place ≤ w.old.place + 211 }
{
    match answer {
        Ok(Section::End) => {
            w.put_bytes(b"end");
            put_place(w, place);
        }
        Ok(Section::Passed { next }) => put_letters(w, strip, place, next),
        Ok(Section::Pane { next, .. }) => put_pane(w, kind, name, place, next),
        Err(why) => put_refused(w, why, place),
    }
}

// The line of the section at a place of a page, at most 212 bytes. Kind and name are those of the pane that was read.
pub fn put_line<'a, 's>(
    w: &'s mut Writer<'a>,
    strip: &[u8],
    place: usize,
    answer: Result<Section, Refusal>,
    kind: Kind,
    name: FixedString<24>,
)
    requires { HasRoom w.old 212 }
    ensures put { PutsText w.old w.new (page_line strip.now place answer kind name) }
    ensures upper_bound { w.new.place ≤ w.old.place + 212 }
{
    put_text(w, strip, place, answer, kind, name);
    w.put_bytes(b"\n");
}
