// The calls for C and Rust. A slice crosses as its pointer and its length; a record as the words of layout.rt; an answer as a number and three words, the counts of a record as a number and four.
// Each call ends, whatever it is handed, and changes nothing where it does not answer PANE, WRITTEN or FILLED, but for the answer's words.
#![tactic(auto)]

mod calls;

ghost use Rattle.std.specs.Prelude.{◌≡◌};
ghost use Rattle.strip_records.specs.Whole.{lists};
ghost use Rattle.exports_answers.specs.Answers.{returned};
ghost use Rattle.exports.specs.Calls.{read_seen, write_seen, read_section_call, read_body_call, write_section_call, write_body_call, label_call, caption_call, filled_call};

use exports_answers::answers;
use exports_parts::{counts, parts};
use exports_read::reads;
use flat::layout;
use strip_records::lists::{Content, Lists};

// The section at a place of data.
#[tactic(auto, unfolding(crate::specs::Calls::seen_read))]
#[unsafe(no_mangle)]
pub extern "C" fn bidlomeqa_read_section(
    order: u64,
    data: &[u8],
    place: usize,
    quads: &mut [u32],
    units: &mut [u16],
    lines: &mut [u32],
    frames: &mut [u16],
    record: &mut [u64],
    answer: &mut [u64],
) -> u64
    ensures { read_seen (returned result answer.new) «record».new (lists quads.new units.new lines.new frames.new) ≡ read_section_call order «data».now place (lists quads.old units.old lines.old frames.old) «record».old answer.old }
{
    if answer.len() < layout::ANSWER_WORDS {
        return layout::SHORT_ANSWER;
    }
    let mut lent = Lists {
        quads,
        units,
        lines,
        frames,
    };
    let x = reads::read_section(order, data, place, &mut lent, record);
    answers::give(answer, answers::section(x))
}

// The body of a kind at a place of data.
#[tactic(auto, unfolding(crate::specs::Calls::seen_read))]
#[unsafe(no_mangle)]
pub extern "C" fn bidlomeqa_read_body(
    order: u64,
    kind: u64,
    data: &[u8],
    place: usize,
    quads: &mut [u32],
    units: &mut [u16],
    lines: &mut [u32],
    frames: &mut [u16],
    record: &mut [u64],
    answer: &mut [u64],
) -> u64
    ensures { read_seen (returned result answer.new) «record».new (lists quads.new units.new lines.new frames.new) ≡ read_body_call order kind «data».now place (lists quads.old units.old lines.old frames.old) «record».old answer.old }
{
    if answer.len() < layout::ANSWER_WORDS {
        return layout::SHORT_ANSWER;
    }
    let mut lent = Lists {
        quads,
        units,
        lines,
        frames,
    };
    let x = reads::read_body(order, kind, data, place, &mut lent, record);
    answers::give(answer, answers::section(x))
}

// The section of a record at a place of out.
#[tactic(auto, unfolding(crate::specs::Calls::seen_write))]
#[unsafe(no_mangle)]
pub extern "C" fn bidlomeqa_write_section(
    order: u64,
    record: &[u64],
    quads: &[u32],
    units: &[u16],
    lines: &[u32],
    frames: &[u16],
    label: &[u8],
    out: &mut [u8],
    place: usize,
    answer: &mut [u64],
) -> u64
    ensures { write_seen (returned result answer.new) out.new ≡ write_section_call order «record».now (lists quads.now units.now lines.now frames.now) label.now out.old place answer.old }
{
    if answer.len() < layout::ANSWER_WORDS {
        return layout::SHORT_ANSWER;
    }
    let content = Content {
        quads,
        units,
        lines,
        frames,
        label,
    };
    let x = calls::write_section(order, record, content, out, place);
    answers::give(answer, answers::written(x))
}

// The body of a record at a place of out.
#[tactic(auto, unfolding(crate::specs::Calls::seen_write))]
#[unsafe(no_mangle)]
pub extern "C" fn bidlomeqa_write_body(
    order: u64,
    record: &[u64],
    quads: &[u32],
    units: &[u16],
    lines: &[u32],
    frames: &[u16],
    label: &[u8],
    out: &mut [u8],
    place: usize,
    answer: &mut [u64],
) -> u64
    ensures { write_seen (returned result answer.new) out.new ≡ write_body_call order «record».now (lists quads.now units.now lines.now frames.now) label.now out.old place answer.old }
{
    if answer.len() < layout::ANSWER_WORDS {
        return layout::SHORT_ANSWER;
    }
    let content = Content {
        quads,
        units,
        lines,
        frames,
        label,
    };
    let x = calls::write_body(order, record, content, out, place);
    answers::give(answer, answers::written(x))
}

// Where the label of a record stands in data.
#[tactic(auto, unfolding(crate::specs::Calls::seen_part))]
#[unsafe(no_mangle)]
pub extern "C" fn bidlomeqa_label(data: &[u8], record: &[u64], answer: &mut [u64]) -> u64
    ensures { returned result answer.new ≡ label_call «data».now «record».now answer.old }
{
    if answer.len() < layout::ANSWER_WORDS {
        return layout::SHORT_ANSWER;
    }
    let x = parts::label(data, record);
    answers::give(answer, answers::part_told(x))
}

// The label in the strip, or the lent caption.
#[tactic(auto, unfolding(crate::specs::Calls::seen_part))]
#[unsafe(no_mangle)]
pub extern "C" fn bidlomeqa_caption(
    strip: &[u8],
    record: &[u64],
    lent: &[u8],
    answer: &mut [u64],
) -> u64
    ensures { returned result answer.new ≡ caption_call strip.now «record».now lent.now answer.old }
{
    if answer.len() < layout::ANSWER_WORDS {
        return layout::SHORT_ANSWER;
    }
    let x = parts::caption(strip, record, lent);
    answers::give(answer, answers::part_told(x))
}

// How many numbers of each list a record counts: a read of it filled the first so many, and a write of it is to be handed so many.
#[tactic(auto, unfolding(crate::specs::Calls::filled_call))]
#[unsafe(no_mangle)]
pub extern "C" fn bidlomeqa_filled(record: &[u64], filled: &mut [u64]) -> u64
    ensures { returned result filled.new ≡ filled_call «record».now filled.old }
{
    if filled.len() < layout::FILLED_WORDS {
        return layout::SHORT_ANSWER;
    }
    counts::counted(record, filled)
}
