// The section writes by kind, from the words of a record.
ghost use Rattle.std.specs.Prelude.{◌≡◌, length};
ghost use Rattle.strip_records.specs.Held.{handed};
ghost use Rattle.strip_write.specs.Write.{write_answer, write_output};
ghost use Rattle.flat_records.specs.Records.{record_by};

use core_read::cursor::ByteOrder;
use core_read::error::Refusal;
use flat::base;
use flat::words::Words;
use flat_kinds::{ali1, pic1, wnd1};
use flat_text_box::txt1;
use strip_records::kind::Kind;
use strip_records::lists::Content;

// The section of a record of a kind at a place.
#[tactic(auto, unfolding(flat_records::specs::Records::record_by, strip_write::specs::Write::write_answer, strip_write::specs::Write::write_output, strip_write::specs::Write::write_checked, strip_write::specs::Write::own_length_checked, strip_write::specs::Write::own_name_checked, strip_write::specs::Write::own_checked, strip_write::specs::Write::section, strip_write::specs::Write::encode_body))]
pub fn write(
    order: ByteOrder,
    kind: Kind,
    words: Words,
    content: Content,
    out: &mut [u8],
    place: usize,
) -> Result<usize, Refusal>
    ensures value { result ≡ write_answer (handed (record_by kind words.entry.words.now) content.entry) (length out.old) place }
    ensures out_after { out.new ≡ write_output order (handed (record_by kind words.entry.words.now) content.entry) out.old place }
{
    let base = base::base_of(words);
    match kind {
        Kind::Pan1 => strip_write::write::write_pan1(order, base, out, place),
        Kind::Pic1 => {
            let own = pic1::picture_of(words);
            strip_write::write::write_pic1(order, base, own, content.quads, out, place)
        }
        Kind::Txt1 => {
            let own = txt1::text_box_of(words);
            let Content {
                units,
                lines,
                label,
                ..
            } = content;
            strip_write::write::write_txt1(order, base, own, units, lines, label, out, place)
        }
        Kind::Wnd1 => {
            let own = wnd1::window_of(words);
            strip_write::write::write_wnd1(
                order,
                base,
                own,
                content.quads,
                content.frames,
                out,
                place,
            )
        }
        Kind::Ali1 => {
            let own = ali1::alignment_of(words);
            strip_write::write::write_ali1(order, base, own, out, place)
        }
    }
}
