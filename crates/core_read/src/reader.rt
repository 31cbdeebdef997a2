// Lent bytes, and a reader that goes through them: nnbfl's `Cursor`. A step moves the reader on or is refused, and is taken with `?`.
ghost use Rattle.std.specs.Prelude.{◌≡◌, ℕ, List, Err, ◌++◌, ◌+◌, ◌*◌, ◌≤◌, ◌<◌, length, drop};
ghost use Rattle.core_read.specs.Bytes.{Room, number_at};
ghost use Rattle.core_read.specs.Lists.{numbers_taken, numbers_at};
ghost use Rattle.core_read.specs.Steps.{Took, Went, Stands, Lendable, StepsAs, Came, number_as};
ghost use Rattle.core_read.specs.Taken.{start, sought, number_taken, label_taken, as_count, Place as PlaceOf, Taken as TakenOf};
ghost use Rattle.core_read.specs.declared.error.Refusal.{Refusal as Why};
ghost use Rattle.core_read.specs.declared.error.Refusal.TheVariants.{UnexpectedEof};
ghost use Rattle.core_read.specs.declared.cursor.ByteOrder.{ByteOrder as Order};

use crate::cursor::{ByteOrder, Cursor, Place};
use crate::error::Refusal;
use crate::number::Number;
use crate::{cursor, text};

// Lent bytes, and the order in which their numbers stand.
#[derive(Clone, Copy)]
pub struct Source<'a> {
    pub order: ByteOrder,
    pub data: &'a [u8],
}

// The bytes run out at a place where width bytes are asked for.
fn run_out(at: usize, width: usize) -> Refusal
    ensures { result ≡ UnexpectedEof at width }
{
    Refusal::UnexpectedEof {
        offset: at,
        requested: width,
    }
}

// A run of reads: the bytes, and where it stands.
#[derive(Clone, Copy)]
pub struct Reader<'a> {
    pub source: Source<'a>,
    pub cursor: Cursor,
}

// What is read with one test where all its bytes are there, and field by field where they are not.
pub trait Field: Copy {
    ghost taken: { Order → List ℕ → PlaceOf → TakenOf Self };

    // How many bytes it has.
    const WIDTH: usize;

    ghost WIDTH: { ℕ };

    // Field by field, so that a refusal tells the field.
    fn fields<'a, 's>(r: &'s mut Reader<'a>) -> Result<Self, Refusal>
        ensures { Took r.old r.new result taken };

    // At a place, where all its bytes are there.
    fn at<'a>(source: Source<'a>, at: usize) -> Self
        requires { (at < length source.«data».now) × Room source.«data».now at WIDTH }
        ensures { Stands (taken source.entry.order source.entry.«data».now) at WIDTH result };
}

impl<'a> Source<'a> {
    // A run that begins at a place, which has read nothing.
    pub fn reader(self, place: usize) -> Reader<'a>
        ensures { (result.source ≡ self.entry) × (result.cursor ≡ start place) }
    {
        Reader {
            source: self,
            cursor: Cursor::start(place),
        }
    }

    // A step from the place of a run, and where the run stands then. A run that was refused does nothing more: its refusal stands.
    pub fn step<T, F: FnOnce(&mut Reader<'a>) -> Result<T, Refusal>>(
        self,
        place: Place,
        step: F,
    ) -> Result<(T, Cursor), Refusal>
        requires { Lendable F.FnOnce step self place }
        ensures came { (taken : Order → List ℕ → PlaceOf → TakenOf T) → StepsAs F.FnOnce step self.entry place taken → Came self.entry place result taken }
        ensures refused { (why : Why) → place ≡ Err why → result ≡ Err why }
    {
        let cursor = place?;
        let mut r = Reader {
            source: self,
            cursor,
        };
        let value = step(&mut r)?;
        Ok((value, r.cursor))
    }

    // The number at a place.
    pub fn number_at<T: Number>(self, at: usize) -> T
        requires { at + T.WIDTH ≤ length self.«data».now }
        ensures { result ≡ T.of_bits (number_at self.entry.order T.WIDTH self.entry.«data».now at) }
    {
        T::of_bytes(self.order, &self.data[at..at + T::WIDTH])
    }

    // The n numbers of 2 bytes from a place on, at the front of a list.
    pub fn fill_u16s(self, at: usize, n: usize, out: &mut [u16])
        requires { Room self.«data».now at (2 * n) × (n ≤ length out.old) }
        ensures { out.new ≡ numbers_at self.entry.order 2 n self.entry.«data».now at ++ drop n out.old }
    {
        for (i, x) in out[..n].iter_mut().enumerate() {
            *x = self.number_at(at + 2 * i);
        }
    }
}

impl<'a> Reader<'a> {
    pub fn number<'s, T: Number>(&'s mut self) -> Result<T, Refusal>
        ensures { Took self.old self.new result (λ order s p. number_as T.of_bits (number_taken order T.WIDTH s p)) }
    {
        let width = T::WIDTH;
        let at = self.cursor.pos;
        let length = self.source.data.len();
        if at < length && width <= length - at {
            let value = self.source.number_at(at);
            self.cursor = self.cursor.advanced(width);
            return Ok(value);
        }
        Err(run_out(at, width))
    }

    pub fn take<'s, T: Field>(&'s mut self) -> Result<T, Refusal>
        ensures { Took self.old self.new result T.taken }
    {
        let width = T::WIDTH;
        let at = self.cursor.pos;
        let length = self.source.data.len();
        if at < length && width <= length - at {
            let value = T::at(self.source, at);
            self.cursor = self.cursor.advanced(width);
            return Ok(value);
        }
        T::fields(self)
    }

    // To the length it succeeds.
    pub fn seek<'s>(&'s mut self, to: usize) -> Result<(), Refusal>
        ensures { Went self.old self.new result (λ order s p. sought s p to) }
    {
        let length = self.source.data.len();
        if to <= length {
            self.cursor = self.cursor.moved(to);
            return Ok(());
        }
        Err(run_out(length, to - length))
    }

    // Past n numbers, which are looked at later.
    pub fn pass<'s, T: Number>(&'s mut self, n: usize) -> Result<(), Refusal>
        ensures { Went self.old self.new result (λ order s p. (numbers_taken order T.WIDTH n s p).then) }
    {
        if n == 0 {
            return Ok(());
        }
        let width = T::WIDTH;
        let from = self.cursor.pos;
        let length = self.source.data.len();
        if length <= from {
            return Err(run_out(from, width));
        }
        let whole = (length - from) / width;
        if n <= whole {
            self.cursor = self.cursor.advanced(width * n);
            return Ok(());
        }
        Err(run_out(from + width * whole, width))
    }

    // A label's length, up to its NUL, which is read too.
    pub fn label<'s>(&'s mut self) -> Result<usize, Refusal>
        ensures { Took self.old self.new result (λ order s p. as_count (label_taken s p)) }
    {
        let at = self.cursor.pos;
        let data = self.source.data;
        if at < data.len() {
            let count = text::string_length(&data[at..]);
            if count < data.len() - at {
                self.cursor = self.cursor.advanced(count + 1);
                return Ok(count);
            }
        }
        Err(Refusal::NoNul { place: at })
    }
}
