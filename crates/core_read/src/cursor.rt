// Where a run of reads stands among lent bytes.
ghost use Rattle.std.specs.Prelude.{◌≡◌, ◌+◌, ◌^◌, ◌<◌};
ghost use Rattle.core_read.specs.Taken.{start, advanced, moved};

use crate::error::Refusal;

// In which order the bytes of a number stand: the lowest first, or the highest.
#[derive(Clone, Copy)]
pub enum ByteOrder {
    Little,
    Big,
}

// A place among the bytes, and how far the run looked: the first place past all bytes that it read.
#[derive(Clone, Copy)]
pub struct Cursor {
    pub pos: usize,
    pub reach: usize,
}

// Where a run of steps stands: at a cursor, or refused. A refused run does nothing more.
pub type Place = Result<Cursor, Refusal>;

impl Cursor {
    // Where a run begins, which has read nothing.
    pub fn start(place: usize) -> Cursor
        ensures { result ≡ start place }
    {
        Cursor {
            pos: place,
            reach: place,
        }
    }

    // After width bytes were read, which the reach then covers; with none it is the same cursor.
    pub fn advanced(self, width: usize) -> Cursor
        requires { self.pos + width < 2 ^ 64 }
        ensures { result ≡ advanced self width }
    {
        if width == 0 {
            return self;
        }
        let pos = self.pos + width;
        let reach = self.reach;
        if reach < pos {
            return Cursor { pos, reach: pos };
        }
        Cursor { pos, reach }
    }

    // Set to a place, which reads nothing.
    pub fn moved(self, to: usize) -> Cursor
        ensures { result ≡ moved self to }
    {
        Cursor {
            pos: to,
            reach: self.reach,
        }
    }
}
