// What a call answers: the number that it returns, and its answer's words, each kind of answer in turn.
ghost use Rattle.std.specs.Prelude.{◌≡◌, ◌≤◌, length, Ok};
ghost use Rattle.exports_answers.specs.declared.answers.Fault.TheVariants.{BadWord as BadWordOf, Refused};
ghost use Rattle.exports_answers.specs.Answers.{or_bad_order, order_of, refused_answer, fault_answer, section_answer, written_answer, Told, section_told, written_told, part_answer, part_told, returned, given};

use core_read::cursor::ByteOrder;
use core_read::error::Refusal;
use flat::layout;
use flat::words::BadWord;
use strip_header::Section;

// A code and three words, not an enum: it is what crosses to C. Calls answer Results, and these are made of them here alone.
#[derive(Clone, Copy)]
pub struct Answer {
    pub code: u64,
    pub a: u64,
    pub b: u64,
    pub c: u64,
}

// Why a call does nothing: a record of too few words, a word of it that is not below its bound, a number that names no byte order, or a refusal.
#[derive(Clone, Copy)]
pub enum Fault {
    ShortRecord,
    BadWord { index: usize },
    BadOrder { number: u64 },
    Refused(Refusal),
}

impl From<Refusal> for Fault {
    ghost from_gives = { λ why f. f ≡ Refused why };

    fn from(why: Refusal) -> Fault {
        Fault::Refused(why)
    }
}

impl From<BadWord> for Fault {
    ghost from_gives = { λ bad f. f ≡ BadWordOf bad.index };

    fn from(bad: BadWord) -> Fault {
        Fault::BadWord { index: bad.index }
    }
}

// The byte order that a number of the C interface names, if it names one. No `TryFrom`: both types are of other crates.
#[tactic(auto, unfolding(crate::specs::Answers::order_of))]
pub fn order_of(n: u64) -> Result<ByteOrder, Fault>
    ensures { result ≡ or_bad_order n (order_of n) }
{
    match n {
        layout::LITTLE => Ok(ByteOrder::Little),
        layout::BIG => Ok(ByteOrder::Big),
        _ => Err(Fault::BadOrder { number: n }),
    }
}

impl From<Refusal> for Answer {
    ghost from_gives = { λ why x. x ≡ refused_answer why };

    fn from(why: Refusal) -> Answer {
        let number = why.number();
        let a = why.a();
        let b = why.b();
        Answer {
            code: layout::REFUSED,
            a: number as u64,
            b: a as u64,
            c: b as u64,
        }
    }
}

impl From<Fault> for Answer {
    ghost from_gives = { λ f x. x ≡ fault_answer f };

    fn from(f: Fault) -> Answer {
        match f {
            Fault::ShortRecord => Answer {
                code: layout::SHORT_RECORD,
                a: layout::RECORD_WORDS as u64,
                b: 0,
                c: 0,
            },
            Fault::BadWord { index } => Answer {
                code: layout::BAD_WORD,
                a: index as u64,
                b: 0,
                c: 0,
            },
            Fault::BadOrder { number } => Answer {
                code: layout::BAD_ORDER,
                a: number,
                b: 0,
                c: 0,
            },
            Fault::Refused(why) => Answer::from(why),
        }
    }
}

impl From<Section> for Answer {
    ghost from_gives = { λ s x. x ≡ section_answer (Ok s) };

    fn from(s: Section) -> Answer {
        match s {
            Section::End => Answer {
                code: layout::END,
                a: 0,
                b: 0,
                c: 0,
            },
            Section::Passed { next } => Answer {
                code: layout::PASSED,
                a: next as u64,
                b: 0,
                c: 0,
            },
            Section::Pane { end, next, reach } => Answer {
                code: layout::PANE,
                a: end as u64,
                b: next as u64,
                c: reach as u64,
            },
        }
    }
}

// A place alone is where a write ended: no other call answers one.
impl From<usize> for Answer {
    ghost from_gives = { λ end x. x ≡ written_answer (Ok end) };

    fn from(end: usize) -> Answer {
        Answer {
            code: layout::WRITTEN,
            a: end as u64,
            b: 0,
            c: 0,
        }
    }
}

// Of which bytes a part is: of the strip, or of the lent caption.
#[derive(Clone, Copy)]
pub enum PartOf {
    Strip,
    Caption,
}

#[derive(Clone, Copy)]
pub struct Part {
    pub of: PartOf,
    pub place: usize,
    pub length: usize,
}

// A part of the bytes that a number names: 0 the strip's, 1 the lent caption's.
pub fn part_answer(which: u64, place: usize, length: usize) -> Answer
    ensures { result ≡ part_answer which place length }
{
    Answer {
        code: layout::PART,
        a: which,
        b: place as u64,
        c: length as u64,
    }
}

impl From<Part> for Answer {
    ghost from_gives = { λ part x. x ≡ part_told (Ok part) };

    fn from(part: Part) -> Answer {
        let Part { of, place, length } = part;
        let which = match of {
            PartOf::Strip => 0,
            PartOf::Caption => 1,
        };
        part_answer(which, place, length)
    }
}

// What a call did, or the fault that kept it from doing anything.
fn told<T: Into<Answer>>(done: Result<T, Fault>) -> Answer
    ensures { Told T.converts done result }
{
    match done {
        Ok(x) => x.into(),
        Err(f) => Answer::from(f),
    }
}

pub fn section(s: Result<Section, Fault>) -> Answer
    ensures { result ≡ section_told s }
{
    told(s)
}

pub fn written(w: Result<usize, Fault>) -> Answer
    ensures { result ≡ written_told w }
{
    told(w)
}

pub fn part_told(x: Result<Part, Fault>) -> Answer
    ensures { result ≡ part_told x }
{
    told(x)
}

// The answer's words, and what the call returns.
pub fn give(answer: &mut [u64], x: Answer) -> u64
    requires { 3 ≤ length answer.old }
    ensures { returned result answer.new ≡ given x answer.old }
{
    answer[0] = x.a;
    answer[1] = x.b;
    answer[2] = x.c;
    x.code
}
