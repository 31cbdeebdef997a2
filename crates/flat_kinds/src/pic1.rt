// The words that a picture has beyond the base.
ghost use Rattle.std.specs.Prelude.{◌≡◌};
ghost use Rattle.flat.specs.Lent.{Stores};
ghost use Rattle.flat_kinds.specs.Own.{picture_words, picture_at};

use flat::words::{Words, WordsMut};
use flat::{layout, words};
use picture_fields::PicturePane;

pub fn put_picture<'a, 's>(out: &'s mut WordsMut<'a>, x: PicturePane)
    ensures { Stores out.old out.new 62 (picture_words x) }
{
    let out = &mut *out.words;
    let colors = x.vertex_colors;
    let shape = x.shape_info_array_index;
    let words = [x.material_index as u64, x.quad_count as u64];
    words::store_colors(out, layout::PICTURE_COLORS, colors);
    words::store(out, layout::PICTURE_MATERIAL, &words);
    words::store_option(out, layout::SHAPE_PRESENT, shape);
}

#[tactic(auto, unfolding(crate::specs::Own::picture_at))]
pub fn picture_of(w: Words) -> PicturePane
    ensures { result ≡ picture_at w.entry.words.now }
{
    let vertex_colors = w.colors_at(layout::PICTURE_COLORS);
    let shape_info_array_index = w.option_at(layout::SHAPE_PRESENT, layout::SHAPE_INDEX);
    PicturePane {
        vertex_colors,
        material_index: w.at(layout::PICTURE_MATERIAL),
        shape_info_array_index,
        quad_count: w.at(layout::PICTURE_QUADS),
    }
}
