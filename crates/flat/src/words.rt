// The words of a record that is lent, and what stands at a place of them.
ghost use Rattle.std.specs.Prelude.{◌≡◌, ℕ, ◌+◌, ◌%◌, ◌≤◌, get_or, length, None, Some, [], ◌∷◌};
ghost use Rattle.flags.specs.Packed.{flag_of};
ghost use Rattle.floats.specs.Floats.{float};
ghost use Rattle.flat.specs.Words.{Stored, flag_word, color_words, colors_words, option_words, byte_at, float_at, vector2_at, vector3_at, quadruple_at, colors_at, bytes_at, option_at};

use crate::layout;
use floats::Binary32;
use ui2d::{Color4u8, Vector2f, Vector3f};

// What stands as one word. A word is read by its low bits, as many as the value has; a flag is set where its word is 1.
pub trait Word: Copy {
    // The word of a value, and the value of any word.
    ghost word: { Self → ℕ };

    ghost of: { ℕ → Self };

    fn to_word(self) -> u64
        ensures { result ≡ word self };

    fn of_word(w: u64) -> Self
        ensures { result ≡ of w };
}

impl Word for bool {
    ghost word = { flag_word };

    ghost of = { flag_of };

    fn to_word(self) -> u64 {
        self as u64
    }

    fn of_word(w: u64) -> bool {
        w == 1
    }
}

impl Word for u8 {
    ghost word = { λ n. n };

    ghost of = { λ n. n % 256 };

    fn to_word(self) -> u64 {
        self as u64
    }

    fn of_word(w: u64) -> u8 {
        (w % 256) as u8
    }
}

impl Word for u16 {
    ghost word = { λ n. n };

    ghost of = { λ n. n % 65536 };

    fn to_word(self) -> u64 {
        self as u64
    }

    fn of_word(w: u64) -> u16 {
        (w % 65_536) as u16
    }
}

impl Word for u32 {
    ghost word = { λ n. n };

    ghost of = { λ n. n % 4294967296 };

    fn to_word(self) -> u64 {
        self as u64
    }

    fn of_word(w: u64) -> u32 {
        (w % 4_294_967_296) as u32
    }
}

impl Word for Binary32 {
    ghost word = { λ x. x.bits };

    ghost of = { λ n. float (n % 4294967296) };

    fn to_word(self) -> u64 {
        self.bits as u64
    }

    fn of_word(w: u64) -> Binary32 {
        Binary32 {
            bits: u32::of_word(w),
        }
    }
}

// The first word of a record that is not below its bound.
#[derive(Clone, Copy, Debug, PartialEq, Eq)]
pub struct BadWord {
    pub index: usize,
}

// ---- stored at a place of any words: a word each

pub fn store(out: &mut [u64], at: usize, words: &[u64])
    requires { at + length words.now ≤ length out.old }
    ensures { Stored out.old at words.now out.new }
{
    out[at..at + words.len()].copy_from_slice(words);
}

// Each byte as a word.
pub fn store_bytes(out: &mut [u64], at: usize, bytes: &[u8])
    requires { at + length bytes.now ≤ length out.old }
    ensures { Stored out.old at bytes.now out.new }
{
    let run = &mut out[at..at + bytes.len()];
    for (i, byte) in bytes.iter().enumerate() {
        run[i] = *byte as u64;
    }
}

// A flag, and what stands behind it: 0 where there is nothing.
pub fn store_option<T: Word>(out: &mut [u64], at: usize, x: Option<T>)
    requires { at + 2 ≤ length out.old }
    ensures { Stored out.old at (option_words T.word x) out.new }
{
    let words = match x {
        None => [0u64, 0],
        Some(v) => [1, v.to_word()],
    };
    store(out, at, &words);
}

pub fn store_color(out: &mut [u64], at: usize, v: Color4u8)
    requires { at + 4 ≤ length out.old }
    ensures { Stored out.old at (color_words v) out.new }
{
    let words = [v.r as u64, v.g as u64, v.b as u64, v.a as u64];
    store(out, at, &words);
}

// Four corners.
pub fn store_colors(out: &mut [u64], at: usize, v: [Color4u8; 4])
    requires { at + 16 ≤ length out.old }
    ensures { Stored out.old at (colors_words v) out.new }
{
    store_color(out, at, v[0]);
    store_color(out, at + 4, v[1]);
    store_color(out, at + 8, v[2]);
    store_color(out, at + 12, v[3]);
}

// ---- read at a place of any words

pub fn byte_at(w: &[u64], at: usize) -> u8
    requires { at + 1 ≤ length w.now }
    ensures { result ≡ byte_at w.now at }
{
    u8::of_word(w[at])
}

pub fn float_at(w: &[u64], at: usize) -> Binary32
    requires { at + 1 ≤ length w.now }
    ensures { result ≡ float_at w.now at }
{
    Binary32::of_word(w[at])
}

pub fn vector2_at(w: &[u64], at: usize) -> Vector2f
    requires { at + 2 ≤ length w.now }
    ensures { result ≡ vector2_at w.now at }
{
    let x = float_at(w, at);
    let y = float_at(w, at + 1);
    Vector2f { x, y }
}

pub fn vector3_at(w: &[u64], at: usize) -> Vector3f
    requires { at + 3 ≤ length w.now }
    ensures { result ≡ vector3_at w.now at }
{
    Vector3f {
        x: float_at(w, at),
        y: float_at(w, at + 1),
        z: float_at(w, at + 2),
    }
}

pub fn color_at(w: &[u64], at: usize) -> Color4u8
    requires { at + 4 ≤ length w.now }
    ensures { result ≡ quadruple_at w.now at }
{
    Color4u8 {
        r: byte_at(w, at),
        g: byte_at(w, at + 1),
        b: byte_at(w, at + 2),
        a: byte_at(w, at + 3),
    }
}

pub fn colors_at(w: &[u64], at: usize) -> [Color4u8; 4]
    requires { at + 16 ≤ length w.now }
    ensures { result ≡ colors_at w.now at }
{
    [
        color_at(w, at),
        color_at(w, at + 4),
        color_at(w, at + 8),
        color_at(w, at + 12),
    ]
}

// The low byte of each word, as many as out has.
pub fn bytes_at(w: &[u64], at: usize, out: &mut [u8])
    requires { at + length out.old ≤ length w.now }
    ensures { out.new ≡ bytes_at w.now at (length out.old) }
{
    for (i, byte) in out.iter_mut().enumerate() {
        *byte = byte_at(w, at + i);
    }
}

// The words of a record, read.
#[derive(Clone, Copy)]
pub struct Words<'a> {
    pub words: &'a [u64],
    pub ghost long: { 116 ≤ length words.now },
}

impl<'a> Words<'a> {
    ghost use Rattle.flat.specs.Lent.{IsRecord};

    // Words that are enough for a record.
    pub fn of(words: &'a [u64]) -> Option<Words<'a>>
        ensures { IsRecord result words.now }
    {
        if words.len() < layout::RECORD_WORDS {
            return None;
        }
        Some(Words { words })
    }

    pub fn at<T: Word>(self, at: usize) -> T
        requires { at + 1 ≤ length self.words.now }
        ensures { result ≡ T.of (get_or self.entry.words.now at 0) }
    {
        T::of_word(self.words[at])
    }

    // What stands at a place, where a flag is set.
    pub fn option_at<T: Word>(self, flag: usize, at: usize) -> Option<T>
        requires { (flag + 1 ≤ length self.words.now) × (at + 1 ≤ length self.words.now) }
        ensures { result ≡ option_at T.of self.entry.words.now flag at }
    {
        if self.at(flag) {
            Some(self.at(at))
        } else {
            None
        }
    }

    pub fn vector2_at(self, at: usize) -> Vector2f
        requires { at + 2 ≤ length self.words.now }
        ensures { result ≡ vector2_at self.entry.words.now at }
    {
        vector2_at(self.words, at)
    }

    pub fn vector3_at(self, at: usize) -> Vector3f
        requires { at + 3 ≤ length self.words.now }
        ensures { result ≡ vector3_at self.entry.words.now at }
    {
        vector3_at(self.words, at)
    }

    pub fn color_at(self, at: usize) -> Color4u8
        requires { at + 4 ≤ length self.words.now }
        ensures { result ≡ quadruple_at self.entry.words.now at }
    {
        color_at(self.words, at)
    }

    pub fn colors_at(self, at: usize) -> [Color4u8; 4]
        requires { at + 16 ≤ length self.words.now }
        ensures { result ≡ colors_at self.entry.words.now at }
    {
        colors_at(self.words, at)
    }

    // The low byte of each word, as many as out has.
    pub fn bytes_at(self, at: usize, out: &mut [u8])
        requires { at + length out.old ≤ length self.words.now }
        ensures { out.new ≡ bytes_at self.entry.words.now at (length out.old) }
    {
        bytes_at(self.words, at, out);
    }
}

// The words of a record, written. It is made in place, of words that Words::of took: of one that a call answers in an Option, the caller would not know
// that a store into it is one into the words that were lent.
#[derive(Drop)]
pub struct WordsMut<'a> {
    pub words: &'a mut [u64],
    pub ghost long: { 116 ≤ length words.now },
}

impl<'a> WordsMut<'a> {
    ghost use Rattle.flat.specs.Lent.{Stores};

    pub fn set<'s>(&'s mut self, at: usize, word: u64)
        requires { at + 1 ≤ length self.old.words.now }
        ensures { Stores self.old self.new at (word ∷ []) }
    {
        self.words[at] = word;
    }

    pub fn store<'s>(&'s mut self, at: usize, words: &[u64])
        requires { at + length words.now ≤ length self.old.words.now }
        ensures { Stores self.old self.new at words.now }
    {
        store(self.words, at, words);
    }

    // Each byte as a word.
    pub fn store_bytes<'s>(&'s mut self, at: usize, bytes: &[u8])
        requires { at + length bytes.now ≤ length self.old.words.now }
        ensures { Stores self.old self.new at bytes.now }
    {
        store_bytes(self.words, at, bytes);
    }

    // A flag, and what stands behind it: 0 where there is nothing.
    pub fn store_option<'s, T: Word>(&'s mut self, at: usize, x: Option<T>)
        requires { at + 2 ≤ length self.old.words.now }
        ensures { Stores self.old self.new at (option_words T.word x) }
    {
        store_option(self.words, at, x);
    }

    pub fn store_color<'s>(&'s mut self, at: usize, v: Color4u8)
        requires { at + 4 ≤ length self.old.words.now }
        ensures { Stores self.old self.new at (color_words v) }
    {
        store_color(self.words, at, v);
    }

    // Four corners.
    pub fn store_colors<'s>(&'s mut self, at: usize, v: [Color4u8; 4])
        requires { at + 16 ≤ length self.old.words.now }
        ensures { Stores self.old self.new at (colors_words v) }
    {
        store_colors(self.words, at, v);
    }
}
