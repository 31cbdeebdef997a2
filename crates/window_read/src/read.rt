// A window's reads: a run that measures and stores nothing, and a second one that fills the lent lists.
ghost use Rattle.std.specs.Prelude.{◌≡◌, Ok, ◌+◌, ◌-◌, ◌*◌, ◌^◌, ◌≤◌, ◌<◌, length, set};
ghost use Rattle.core_read.specs.Bytes.{Room};
ghost use Rattle.core_read.specs.Taken.{over, sought};
ghost use Rattle.core_read.specs.Lists.{numbers_taken, numbers_at};
ghost use Rattle.core_read.specs.Steps.{Took, Went};
ghost use Rattle.core_read.specs.declared.cursor.Cursor.{Cursor};
ghost use Rattle.flags.specs.Enums.{flip_number};
ghost use Rattle.window_read.specs.Window.{frame_taken, frames_taken, window_taken, window_of, window_quads, window_frames};

use crate::{WindowContent, WindowFrame, WindowPane};
use core_read::cursor::Cursor;
use core_read::error::Refusal;
use core_read::reader::{Field, Reader, Source};
use flags::window::TextureFlip;
use window_head::WindowHead;

// A window that was measured, and where its quads and its frame table stand.
#[derive(Clone, Copy)]
pub struct WindowFound {
    pub window: WindowPane,
    pub quads: Cursor,
    pub table: Cursor,
}

// Past n frames, at the offsets that the table holds.
fn measure_frames<'a, 's>(
    r: &'s mut Reader<'a>,
    from: usize,
    table: Cursor,
    n: usize,
) -> Result<(), Refusal>
    requires { (from < 2 ^ 32) × Room r.old.source.«data».now table.pos (4 * n) }
    ensures { Went r.old r.new result (λ order s p. (frames_taken order s from (numbers_taken order 4 n s (Ok table)).value p).then) }
{
    let mut offsets = Reader {
        source: r.source,
        cursor: table,
    };
    for _ in 0..n {
        let offset = offsets.number::<u32>()?;
        r.seek(from + offset as usize)?;
        r.take::<WindowFrame>()?;
    }
    Ok(())
}

// The window of a head and a content.
fn window_of(h: WindowHead, content: WindowContent) -> WindowPane
    ensures { result ≡ window_of h content }
{
    let inflation = h.inflation;
    let size = h.frame_size;
    let flag = h.flag;
    WindowPane {
        inflation_left: inflation.left,
        inflation_right: inflation.right,
        inflation_top: inflation.top,
        inflation_bottom: inflation.bottom,
        frame_size_left: size.left,
        frame_size_right: size.right,
        frame_size_top: size.top,
        frame_size_bottom: size.bottom,
        flag,
        frame_count: h.frame_count,
        content,
    }
}

// The first run: the head, the content, the whole table, the frames in order, and the place after the head.
#[tactic(auto, using(crate::proofs::Run::content_stays, crate::proofs::Run::frames_stay, crate::proofs::Run::seek_refused, core_read::proofs::Lists::numbers_stay), unfolding(crate::specs::Window::window_taken))]
pub fn measure_window<'a, 's>(r: &'s mut Reader<'a>, body: usize) -> Result<WindowFound, Refusal>
    requires { (8 ≤ body) × (body < 2 ^ 32) }
    ensures { Took r.old r.new result (λ order s p. window_taken order s p body) }
{
    let from = body - 8;
    let head: WindowHead = r.take()?;
    r.seek(from + head.content_offset as usize)?;
    let content: WindowContent = r.take()?;
    let quads = r.cursor;
    r.pass::<u32>(8 * content.quad_count as usize)?;
    r.seek(from + head.table_offset as usize)?;
    let table = r.cursor;
    let n = head.frame_count as usize;
    r.pass::<u32>(n)?;
    measure_frames(r, from, table, n)?;
    r.seek(body + 104)?;
    let window = window_of(head, content);
    Ok(WindowFound {
        window,
        quads,
        table,
    })
}

// What is there of a frame: a number that runs out is 0.
fn frame_part<'a>(source: Source<'a>, at: usize) -> WindowFrame
    requires { at < 2 ^ 33 }
    ensures { (c : Cursor) → result ≡ (frame_taken source.entry.order source.entry.«data».now (sought source.entry.«data».now (Ok c) at)).value }
{
    let length = source.data.len();
    let material_index = if at + 2 <= length {
        source.number_at(at)
    } else {
        0
    };
    let flip: u8 = if at + 3 <= length {
        source.number_at(at + 2)
    } else {
        0
    };
    WindowFrame {
        material_index,
        texture_flip_mode: TextureFlip::from(flip),
    }
}

// A frame as material and flip, the frame i of a list.
fn store_frame(out: &mut [u16], i: usize, frame: WindowFrame)
    requires { 2 * i + 1 < length out.old }
    ensures { out.new ≡ set (set out.old (2 * i) frame.material_index) (2 * i + 1) (flip_number frame.texture_flip_mode) }
{
    let flip = u8::from(frame.texture_flip_mode);
    out[2 * i] = frame.material_index;
    out[2 * i + 1] = flip as u16;
}

// The n frames at the offsets of a table, as material and flip; zeros after the first that runs out.
// By place: the contracts of chunks_exact_mut and as_chunks_mut say nothing of what the list is afterwards.
fn fill_frames<'a>(source: Source<'a>, from: usize, table: usize, n: usize, out: &mut [u16])
    requires { (from < 2 ^ 32) × Room source.«data».now table (4 * n) × (2 * n ≤ length out.old) }
    ensures { (c : Cursor) → out.new ≡ over (frames_taken source.entry.order source.entry.«data».now from (numbers_at source.entry.order 4 n source.entry.«data».now table) (Ok c)).value out.old }
{
    for i in 0..n {
        let offset: u32 = source.number_at(table + 4 * i);
        let at = from + offset as usize;
        if source.data.len() < at + 4 {
            let part = frame_part(source, at);
            store_frame(out, i, part);
            out[2 * i + 2..2 * n].fill(0);
            return;
        }
        let frame = WindowFrame::at(source, at);
        store_frame(out, i, frame);
    }
}

// The second run, of a window whose quads are there. A table that runs out gives zeros for all frames.
pub fn fill_window<'a>(
    source: Source<'a>,
    found: WindowFound,
    body: usize,
    quads: &mut [u32],
    frames: &mut [u16],
)
    requires le_body { (8 ≤ body) × (body < 2 ^ 32) }
    requires ahead { Room source.«data».now found.quads.pos (4 * (8 * found.window.content.quad_count)) }
    requires in_bounds { (2040 ≤ length quads.old) × (510 ≤ length frames.old) }
    ensures quads_after { quads.new ≡ over (window_quads source.entry.order source.entry.«data».now found) quads.old }
    ensures frames_after { frames.new ≡ over (window_frames source.entry.order source.entry.«data».now found body) frames.old }
{
    let window = found.window;
    let quad_count = window.content.quad_count as usize;
    let frame_count = window.frame_count as usize;
    ui2d::quads::fill_quads(source, found.quads.pos, quad_count, quads);
    let table = found.table.pos;
    let length = source.data.len();
    if table <= length && 4 * frame_count <= length - table {
        fill_frames(source, body - 8, table, frame_count, frames);
    } else {
        frames[..2 * frame_count].fill(0);
    }
}
