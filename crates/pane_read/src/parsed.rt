// What is read of a pane of any kind: the base, and what its kind has of its own. A base pane has nothing of its own: ().
ghost use Rattle.std.specs.Prelude.{◌≡◌, Err, Ok};
ghost use Rattle.pane_read.specs.Pane.{blank_pane};

use crate::{Pane, blank_pane};
use core_read::cursor::Cursor;
use core_read::error::Refusal;

// A pane that was measured.
#[derive(Clone, Copy)]
pub struct Measured<T> {
    pub base: Pane,
    pub own: T,
}

// What a body read gives: its answer, and the pane, blank where it was refused. The answer stands beside the pane, as document 01 has it.
#[derive(Clone, Copy)]
pub struct Parsed<T> {
    pub answer: Result<Cursor, Refusal>,
    pub base: Pane,
    pub own: T,
}

impl<T> Parsed<T> {
    // Of a pane that was read up to a cursor.
    pub fn accepted(end: Cursor, base: Pane, own: T) -> Parsed<T>
        ensures { (result.answer ≡ Ok end) × (result.base ≡ base) × (result.own ≡ own) }
    {
        Parsed {
            answer: Ok(end),
            base,
            own,
        }
    }
}

impl<T: Default> Parsed<T> {
    pub fn refused(why: Refusal) -> Parsed<T>
        ensures { (result.answer ≡ Err why) × (result.base ≡ blank_pane) × T.is_default result.own }
    {
        Parsed {
            answer: Err(why),
            base: blank_pane(),
            own: T::default(),
        }
    }
}
