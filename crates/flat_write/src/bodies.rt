// The body writes by kind.
ghost use Rattle.std.specs.Prelude.{◌≡◌, length};
ghost use Rattle.strip_records.specs.Held.{handed};
ghost use Rattle.flat_records.specs.Records.{record_by};
ghost use Rattle.flat_write.specs.Bodies.{body_answer, body_output};

use core_read::cursor::ByteOrder;
use core_read::error::Refusal;
use flat::base;
use flat::words::Words;
use flat_kinds::{ali1, pic1, wnd1};
use flat_text_box::txt1;
use strip_records::kind::Kind;
use strip_records::lists::Content;

// The body of a record of a kind at a place.
// This and the section's write stay two functions. By kind, each calls functions that the other does not: `pane::write` here, `write_pan1` of strip_write there. One function for both would have to be handed those five, as a trait of five methods with a contract each.
#[tactic(auto, unfolding(crate::specs::Bodies::body_answer, crate::specs::Bodies::body_output, flat_records::specs::Records::record_by))]
pub fn write(
    order: ByteOrder,
    kind: Kind,
    words: Words,
    content: Content,
    out: &mut [u8],
    place: usize,
) -> Result<usize, Refusal>
    ensures value { result ≡ body_answer kind (handed (record_by kind words.entry.words.now) content.entry) (length out.old) place }
    ensures out_after { out.new ≡ body_output order kind (handed (record_by kind words.entry.words.now) content.entry) out.old place }
{
    let base = base::base_of(words);
    match kind {
        Kind::Pan1 => pane::write(order, base, out, place),
        Kind::Pic1 => {
            let own = pic1::picture_of(words);
            picture::write(order, base, own, content.quads, out, place)
        }
        Kind::Txt1 => {
            let own = txt1::text_box_of(words);
            let Content {
                units,
                lines,
                label,
                ..
            } = content;
            text_box::write(order, base, own, units, lines, label, out, place)
        }
        Kind::Wnd1 => {
            let own = wnd1::window_of(words);
            window::write(order, base, own, content.quads, content.frames, out, place)
        }
        Kind::Ali1 => {
            let own = ali1::alignment_of(words);
            alignment::write(order, base, own, out, place)
        }
    }
}
