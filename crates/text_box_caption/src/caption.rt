// A label as a part of the strip, and the caption for the screen.
ghost use Rattle.std.specs.Prelude.{◌≡◌};
ghost use Rattle.text_box_caption.specs.Caption.{byte_at, label_of, label_place, caption_of, caption_start};

use text_box_parts::Span;

// The label, not a copy; the empty part at 0 where it is absent, or where its place and length pass the strip.
pub fn label<'a>(data: &'a [u8], l: Option<Span>) -> &'a [u8]
    ensures result_value { result.now ≡ label_of «data».now l }
    ensures ref_ptr_value { result.ref_ptr ≡ byte_at «data».entry.ref_ptr (label_place «data».now l) }
{
    caption(data, l, &data[0..0])
}

// The label if there is one, otherwise the lent caption; a part of whichever of the two.
pub fn caption<'a>(strip: &'a [u8], l: Option<Span>, lent: &'a [u8]) -> &'a [u8]
    ensures result_value { result.now ≡ caption_of strip.now l lent.now }
    ensures ref_ptr_value { result.ref_ptr ≡ caption_start strip.now l strip.entry.ref_ptr lent.entry.ref_ptr }
{
    match l {
        Some(Span { place, length }) if place <= strip.len() && length <= strip.len() - place => {
            &strip[place..place + length]
        }
        _ => lent,
    }
}
