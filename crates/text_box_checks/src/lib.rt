// The checks of a text box: 7 of a label that was read; 1, 9, 11, 13, 14 and 15 of one to write. The lists and the label of an absent part are not looked at.
#![tactic(auto)]

ghost use Rattle.std.specs.Prelude.{◌≡◌};
ghost use Rattle.utf16.specs.Utf16.{utf16_of};
ghost use Rattle.text_box_parts.specs.Parts.{text_part, label_part, line_part};
ghost use Rattle.core_checks.specs.Answered.{Lets};
ghost use Rattle.text_box_checks.specs.Checks.{label_checked, label_length_checked, label_bad, label_name_checked, lines_checked, units_bad, bit_bad, fault_checked, utf16_checked, text_box_checked};

use core_checks::checks;
use core_read::error::{CheckedText, NumberList, Refusal};
use core_read::text;
use text_box_parts::{Span, Text};
use text_box_read::TextBoxPane;

// 7, of a label that was read.
#[tactic(auto, unfolding(crate::specs::Checks::label_checked, core_read::specs::Taken::stop_if))]
pub fn label_checked(data: &[u8], label: Option<Span>) -> Result<(), Refusal>
    ensures { Lets result (λ p. label_checked p «data».now label) }
{
    let Some(Span { place, length: _ }) = label else {
        return Ok(());
    };
    let bytes = text_box_caption::caption::label(data, label);
    if !utf8::well_formed(bytes) {
        return Err(Refusal::IllFormedUtf8 {
            place,
            which: CheckedText::Label,
        });
    }
    Ok(())
}

// 1, of a label to write.
#[tactic(auto, unfolding(crate::specs::Checks::label_length_checked))]
pub fn label_length_checked(label: Option<Span>, bytes: &[u8]) -> Result<(), Refusal>
    ensures { Lets result (λ p. label_length_checked p (label_part label bytes.now)) }
{
    match label {
        None => Ok(()),
        Some(_) => checks::length_checked(bytes.len()),
    }
}

// With a NUL or ill-formed.
#[tactic(auto, unfolding(crate::specs::Checks::label_bad))]
fn label_bad(label: Option<Span>, bytes: &[u8]) -> bool
    ensures { result ≡ label_bad (label_part label bytes.now) }
{
    match label {
        None => false,
        Some(_) => {
            let zero = text::has_zero(bytes);
            let formed = utf8::well_formed(bytes);
            zero | !formed
        }
    }
}

// 9, of a label to write.
#[tactic(auto, unfolding(crate::specs::Checks::label_name_checked, core_read::specs::Taken::stop_if))]
pub fn label_name_checked(label: Option<Span>, bytes: &[u8]) -> Result<(), Refusal>
    ensures { Lets result (λ p. label_name_checked p (label_part label bytes.now)) }
{
    if label_bad(label, bytes) {
        return Err(Refusal::BadName {
            which: CheckedText::Label,
        });
    }
    Ok(())
}

// 11
#[tactic(auto, unfolding(crate::specs::Checks::lines_checked))]
fn lines_checked(table: Option<u8>, lines: &[u32]) -> Result<(), Refusal>
    ensures { Lets result (λ p. lines_checked p (line_part table lines.now)) }
{
    match table {
        None => Ok(()),
        Some(_) => checks::count_checked(NumberList::Lines, 2, lines.len()),
    }
}

#[tactic(auto, unfolding(crate::specs::Checks::units_bad))]
fn units_bad(text: Text, units: &[u16], text_length: u16) -> bool
    ensures { result ≡ units_bad (text_part text units.now) text_length }
{
    match text {
        Text::Absent => false,
        Text::Present => units.len() != (text_length / 2) as usize,
    }
}

#[tactic(auto, unfolding(crate::specs::Checks::bit_bad))]
fn bit_bad(table: Option<u8>, line: bool) -> bool
    ensures { result ≡ bit_bad table line }
{
    match table {
        None => false,
        Some(_) => !line,
    }
}

// 14, of a text that is present.
#[tactic(auto, unfolding(crate::specs::Checks::fault_checked, core_read::specs::Taken::stop_if))]
fn fault_checked(units: &[u16]) -> Result<(), Refusal>
    ensures { Lets result (λ p. fault_checked p (utf16_of units.now)) }
{
    match utf16::first_unpaired(units) {
        None => Ok(()),
        Some(before) => Err(Refusal::IllFormedUtf16 { units: before }),
    }
}

// 14
#[tactic(auto, unfolding(crate::specs::Checks::utf16_checked))]
fn utf16_checked(text: Text, units: &[u16]) -> Result<(), Refusal>
    ensures { Lets result (λ p. utf16_checked p (text_part text units.now)) }
{
    match text {
        Text::Absent => Ok(()),
        Text::Present => fault_checked(units),
    }
}

// 11, 13, 14 and 15
#[tactic(auto, using(crate::proofs::Stays::utf16_stays), unfolding(crate::specs::Checks::text_box_checked, core_read::specs::Taken::stop_if))]
pub fn text_box_checked(x: TextBoxPane, units: &[u16], lines: &[u32]) -> Result<(), Refusal>
    ensures { Lets result (λ p. text_box_checked p x units.now lines.now) }
{
    lines_checked(x.line_table, lines)?;
    if units_bad(x.text, units, x.text_length) {
        return Err(Refusal::TextLength {
            units: units.len(),
            text_length: x.text_length as usize,
        });
    }
    utf16_checked(x.text, units)?;
    if bit_bad(x.line_table, x.text_flags.is_line_transform) {
        return Err(Refusal::NoLineBit);
    }
    Ok(())
}
