// A material's index and the two bytes after it.
ghost use Rattle.ui2d.specs.Material.{material_taken};

use core_read::error::Refusal;
use core_read::reader::{Field, Reader, Source};

// Of a picture the bytes are the quad count and the shape byte, of a window's content the quad count and 0.
#[derive(Clone, Copy)]
pub struct Material {
    pub index: u16,
    pub first: u8,
    pub second: u8,
}

impl Field for Material {
    ghost taken = { material_taken };

    const WIDTH: usize = 4;

    ghost WIDTH = { 4 };

    #[tactic(auto, unfolding(crate::specs::Material::material_taken, core_read::specs::Taken::number_taken))]
    fn fields<'a, 's>(r: &'s mut Reader<'a>) -> Result<Material, Refusal> {
        let index = r.number()?;
        let first = r.number()?;
        let second = r.number()?;
        Ok(Material {
            index,
            first,
            second,
        })
    }

    fn at<'a>(source: Source<'a>, at: usize) -> Material {
        Material {
            index: source.number_at(at),
            first: source.number_at(at + 2),
            second: source.number_at(at + 3),
        }
    }
}
