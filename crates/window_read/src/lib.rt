// What a window pane has beyond the base: 28 bytes, and at the offsets that they give the content, the frame table and the frames.
#![tactic(auto)]

pub mod read;

ghost use Rattle.std.specs.Prelude.{◌≡◌};
ghost use Rattle.window_read.specs.Window.{content_taken, frame_taken, blank_window};
ghost use Rattle.window_read.specs.Typed.{TypedWindow};

use core_read::error::Refusal;
use core_read::reader::{Field, Reader, Source};
use flags::window::{TextureFlip, WindowFlags};
use ui2d::Color4u8;
use ui2d::material::Material;

// The content without its quads, which stand in a lent list.
#[derive(Clone, Copy)]
pub struct WindowContent {
    pub vertex_colors: [Color4u8; 4],
    pub material_index: u16,
    pub quad_count: u8,
}

#[derive(Clone, Copy)]
pub struct WindowFrame {
    pub material_index: u16,
    pub texture_flip_mode: TextureFlip,
}

// The window without its base and its frames, which stand in a lent list.
#[derive(Clone, Copy)]
pub struct WindowPane {
    pub inflation_left: i16,
    pub inflation_right: i16,
    pub inflation_top: i16,
    pub inflation_bottom: i16,
    pub frame_size_left: i16,
    pub frame_size_right: i16,
    pub frame_size_top: i16,
    pub frame_size_bottom: i16,
    pub flag: WindowFlags,
    pub frame_count: u8,
    pub content: WindowContent,
}

// The reserved byte is read, and kept nowhere.
impl Field for WindowContent {
    ghost taken = { content_taken };

    const WIDTH: usize = 20;

    ghost WIDTH = { 20 };

    #[tactic(auto, unfolding(crate::specs::Window::content_taken, ui2d::specs::Parts::colors_taken, ui2d::specs::Parts::color_taken, ui2d::specs::Material::material_taken, core_read::specs::Taken::number_taken))]
    fn fields<'a, 's>(r: &'s mut Reader<'a>) -> Result<WindowContent, Refusal> {
        let vertex_colors = ui2d::read_colors(r)?;
        let material: Material = r.take()?;
        Ok(WindowContent {
            vertex_colors,
            material_index: material.index,
            quad_count: material.first,
        })
    }

    fn at<'a>(source: Source<'a>, at: usize) -> WindowContent {
        let vertex_colors = ui2d::colors_at(source, at);
        let material = Material::at(source, at + 16);
        WindowContent {
            vertex_colors,
            material_index: material.index,
            quad_count: material.first,
        }
    }
}

// An unknown flip reads as None. The reserved byte is read, and kept nowhere.
impl Field for WindowFrame {
    ghost taken = { frame_taken };

    const WIDTH: usize = 4;

    ghost WIDTH = { 4 };

    #[tactic(auto, unfolding(crate::specs::Window::frame_taken, core_read::specs::Taken::number_taken))]
    fn fields<'a, 's>(r: &'s mut Reader<'a>) -> Result<WindowFrame, Refusal> {
        let material_index = r.number()?;
        let flip: u8 = r.number()?;
        r.number::<u8>()?;
        Ok(WindowFrame {
            material_index,
            texture_flip_mode: TextureFlip::from(flip),
        })
    }

    fn at<'a>(source: Source<'a>, at: usize) -> WindowFrame {
        let material_index = source.number_at(at);
        let flip: u8 = source.number_at(at + 2);
        WindowFrame {
            material_index,
            texture_flip_mode: TextureFlip::from(flip),
        }
    }
}

fn zero_color() -> Color4u8
    ensures { result ≡ record { r = 0; g = 0; b = 0; a = 0 } }
{
    Color4u8 {
        r: 0,
        g: 0,
        b: 0,
        a: 0,
    }
}

fn blank_content() -> WindowContent
    ensures { result ≡ blank_window.content }
{
    let black = zero_color();
    let vertex_colors = [black, black, black, black];
    WindowContent {
        vertex_colors,
        material_index: 0,
        quad_count: 0,
    }
}

// The window beside a refusal: numbers 0, first cases, false.
pub fn blank_window() -> WindowPane
    ensures { result ≡ blank_window }
{
    let content = blank_content();
    WindowPane {
        inflation_left: 0,
        inflation_right: 0,
        inflation_top: 0,
        inflation_bottom: 0,
        frame_size_left: 0,
        frame_size_right: 0,
        frame_size_top: 0,
        frame_size_bottom: 0,
        flag: WindowFlags::from(0),
        frame_count: 0,
        content,
    }
}

impl Default for WindowPane {
    ghost is_default = { λ x. x ≡ blank_window };

    fn default() -> WindowPane {
        blank_window()
    }
}

// Every window is one that TypedWindow describes.
pub fn typed_window(x: WindowPane)
    ensures { TypedWindow x }
{
    let content = x.content;
    let colors = content.vertex_colors;
    ui2d::typed_colors(colors);
}
