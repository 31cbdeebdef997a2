// The head of a window: the 28 bytes after the base.
#![tactic(auto)]

ghost use Rattle.window_head.specs.Head.{sides_taken, head_taken};

use core_read::error::Refusal;
use core_read::reader::{Field, Reader, Source};
use flags::window::WindowFlags;

// Left, right, top, bottom.
#[derive(Clone, Copy)]
pub struct Sides {
    pub left: i16,
    pub right: i16,
    pub top: i16,
    pub bottom: i16,
}

// The 28 bytes after the base.
#[derive(Clone, Copy)]
pub struct WindowHead {
    pub inflation: Sides,
    pub frame_size: Sides,
    pub frame_count: u8,
    pub flag: WindowFlags,
    pub content_offset: u32,
    pub table_offset: u32,
}

impl Field for Sides {
    ghost taken = { sides_taken };

    const WIDTH: usize = 8;

    ghost WIDTH = { 8 };

    #[tactic(auto, unfolding(crate::specs::Head::sides_taken, core_read::specs::Taken::number_taken))]
    fn fields<'a, 's>(r: &'s mut Reader<'a>) -> Result<Sides, Refusal> {
        let left = r.number()?;
        let right = r.number()?;
        let top = r.number()?;
        let bottom = r.number()?;
        Ok(Sides {
            left,
            right,
            top,
            bottom,
        })
    }

    fn at<'a>(source: Source<'a>, at: usize) -> Sides {
        Sides {
            left: source.number_at(at),
            right: source.number_at(at + 2),
            top: source.number_at(at + 4),
            bottom: source.number_at(at + 6),
        }
    }
}

// The reserved u16 is read, and kept nowhere.
impl Field for WindowHead {
    ghost taken = { head_taken };

    const WIDTH: usize = 28;

    ghost WIDTH = { 28 };

    #[tactic(auto, unfolding(crate::specs::Head::head_taken, crate::specs::Head::sides_taken, core_read::specs::Taken::number_taken))]
    fn fields<'a, 's>(r: &'s mut Reader<'a>) -> Result<WindowHead, Refusal> {
        let inflation = r.take()?;
        let frame_size = r.take()?;
        let frame_count = r.number()?;
        let flag = WindowFlags::from(r.number::<u8>()?);
        r.number::<u16>()?;
        let content_offset = r.number()?;
        let table_offset = r.number()?;
        Ok(WindowHead {
            inflation,
            frame_size,
            frame_count,
            flag,
            content_offset,
            table_offset,
        })
    }

    fn at<'a>(source: Source<'a>, at: usize) -> WindowHead {
        let inflation = Sides::at(source, at);
        let frame_size = Sides::at(source, at + 8);
        let frame_count = source.number_at(at + 16);
        let flag: u8 = source.number_at(at + 17);
        let content_offset = source.number_at(at + 20);
        let table_offset = source.number_at(at + 24);
        WindowHead {
            inflation,
            frame_size,
            frame_count,
            flag: WindowFlags::from(flag),
            content_offset,
            table_offset,
        }
    }
}
