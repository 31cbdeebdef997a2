// The checks of a base pane: 7 of one that was read, 9 and 10 of one to write.
ghost use Rattle.std.specs.Prelude.{◌≡◌, ◌^◌, ◌<◌, length, take};
ghost use Rattle.core_checks.specs.Answered.{Lets};
ghost use Rattle.pane_checks.specs.Checks.{name_ill, name_bad, names_checked, reserve_checked, texts_checked};

use core_read::error::{CheckedText, Refusal};
use core_read::text;
use core_read::text::FixedString;
use pane_read::Pane;

// The counted bytes of a name.
fn text_of(bytes: &[u8], count: usize) -> &[u8]
    ensures { result.now ≡ take count bytes.now }
{
    if count <= bytes.len() {
        &bytes[..count]
    } else {
        bytes
    }
}

fn name_ill(bytes: &[u8], count: usize) -> bool
    ensures { result ≡ name_ill bytes.now count }
{
    if utf8::is_ascii(bytes) {
        return false;
    }
    let text = text_of(bytes, count);
    let formed = utf8::well_formed(text);
    !formed
}

// Over its width, with a NUL or ill-formed.
fn name_bad(bytes: &[u8], count: usize) -> bool
    ensures { result ≡ name_bad (length bytes.now) bytes.now count }
{
    let text = text_of(bytes, count);
    let zero = text::has_zero(text);
    let ill = name_ill(bytes, count);
    (bytes.len() < count) | zero | ill
}

fn string_bad<const N: usize>(n: FixedString<N>) -> bool
    ensures { result ≡ name_bad N n.entry.bytes n.entry.count }
{
    let bytes = n.bytes;
    name_bad(&bytes, n.count)
}

fn string_ill<const N: usize>(n: FixedString<N>) -> bool
    ensures { result ≡ name_ill n.entry.bytes n.entry.count }
{
    let bytes = n.bytes;
    name_ill(&bytes, n.count)
}

// 9 for the pane name, then for the user name.
#[tactic(auto, unfolding(crate::specs::Checks::names_checked, core_read::specs::Taken::stop_if))]
pub fn names_checked(b: Pane) -> Result<(), Refusal>
    ensures { Lets result (λ p. names_checked p b) }
{
    if string_bad(b.pane_name) {
        return Err(Refusal::BadName {
            which: CheckedText::PaneName,
        });
    }
    if string_bad(b.user_name) {
        return Err(Refusal::BadName {
            which: CheckedText::UserName,
        });
    }
    Ok(())
}

// 10
#[tactic(auto, unfolding(crate::specs::Checks::reserve_checked, core_read::specs::Taken::stop_if))]
pub fn reserve_checked(b: Pane) -> Result<(), Refusal>
    ensures { Lets result (λ p. reserve_checked p b) }
{
    let value = b.flag_ex.reserve0;
    if 31 < value {
        return Err(Refusal::Reserve0 {
            value: value as usize,
        });
    }
    Ok(())
}

// 7 for the pane name, then for the user name, of a pane that was read at a place.
#[tactic(auto, unfolding(crate::specs::Checks::texts_checked, core_read::specs::Taken::stop_if))]
pub fn texts_checked(b: Pane, body: usize) -> Result<(), Refusal>
    requires { body < 2 ^ 32 }
    ensures { Lets result (λ p. texts_checked p b body) }
{
    if string_ill(b.pane_name) {
        return Err(Refusal::IllFormedUtf8 {
            place: body + 4,
            which: CheckedText::PaneName,
        });
    }
    if string_ill(b.user_name) {
        return Err(Refusal::IllFormedUtf8 {
            place: body + 28,
            which: CheckedText::UserName,
        });
    }
    Ok(())
}
