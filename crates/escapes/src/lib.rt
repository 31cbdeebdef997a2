// Bytes shown between quotes on a line of text, so that none of them can be taken for the end of the quotes or of the line.
// Control characters and the bytes of characters that end a line are written as `\xHH`; a quote and a backslash have a backslash before them.
#![tactic(auto)]

ghost use Rattle.std.specs.Prelude.{◌≡◌, ◌+◌, ◌-◌, ◌*◌, ◌<◌, ◌≤◌, cond, leb, length, get_or};
ghost use Rattle.core_write.specs.Puts.{HasRoom, PutsText};
ghost use Rattle.escapes.specs.Escaped.{control, hidden_width, hex_digit, hex_digits, written_out, shown, escaped};
ghost use Rattle.escapes.specs.Escaped.{hidden as Escaped·hidden};

use core_write::writer::Writer;

// ---- which bytes are written out

fn is_control(b: u8) -> bool
    ensures { result ≡ control b }
{
    b.is_ascii_control()
}

// The byte at a place, or 0 beyond the end.
fn byte_at(s: &[u8], i: usize) -> u8
    ensures { result ≡ get_or s.now i 0 }
{
    s.get(i).copied().unwrap_or(0)
}

// How many bytes the first character has, if it is one that is written out.
fn hidden_width(s: &[u8]) -> usize
    ensures { result ≡ hidden_width s.now }
{
    let a = byte_at(s, 0);
    let b = byte_at(s, 1);
    let c = byte_at(s, 2);
    if (a == 0xC2) & (b < 0xA0) {
        return 2;
    }
    if (a == 0xE2) & ((b == 0x80) & ((c == 0xA8) | (c == 0xA9))) {
        return 3;
    }
    0
}

// Whether byte i is in such a character, which begins there, or 1 or 2 bytes before.
fn hidden(s: &[u8], i: usize) -> bool
    requires { i < length s.now }
    ensures { result ≡ Escaped·hidden s.now i }
{
    (0..3).any(|back: usize| back < hidden_width(&s[i.saturating_sub(back)..]))
}

// ---- how they are written

#[tactic(auto, unfolding(crate::specs::Escaped::hex_digit))]
fn hex_digit(d: u8) -> u8
    requires { d < 16 }
    ensures { result ≡ hex_digit d }
{
    match d {
        0..=9 => b'0' + d,
        _ => b'A' + (d - 10),
    }
}

// The two digits of a byte, the high half first.
pub fn put_hex_digits<'a, 's>(w: &'s mut Writer<'a>, b: u8)
    requires { HasRoom w.old 2 }
    ensures { PutsText w.old w.new (hex_digits b) }
{
    let high = hex_digit(b / 16 % 16);
    let low = hex_digit(b % 16);
    let two = [high, low];
    w.put_bytes(&two);
}

// `\xHH`
fn put_written_out<'a, 's>(w: &'s mut Writer<'a>, b: u8)
    requires { HasRoom w.old 4 }
    ensures { PutsText w.old w.new (written_out b) }
{
    w.put_bytes(b"\\x");
    put_hex_digits(w, b);
}

fn put_shown<'a, 's>(w: &'s mut Writer<'a>, hide: bool, b: u8)
    requires { HasRoom w.old 4 }
    ensures { PutsText w.old w.new (shown hide b) }
{
    let never = is_control(b);
    if hide | never {
        put_written_out(w, b);
    } else if (b == b'"') | (b == b'\\') {
        w.put_bytes(&[b'\\', b]);
    } else {
        w.put_bytes(&[b]);
    }
}

// Whether byte i is written out: with ascii every byte of 0x80 and above.
fn is_written_out(s: &[u8], i: usize, ascii: bool) -> bool
    requires { i < length s.now }
    ensures { result ≡ cond ascii (leb 0x80 (get_or s.now i 0)) (Escaped·hidden s.now i) }
{
    if ascii { 0x80 <= s[i] } else { hidden(s, i) }
}

// Puts the bytes of s as they are shown, at most four for each.
pub fn put_escaped<'a, 's>(w: &'s mut Writer<'a>, s: &[u8], ascii: bool)
    requires { HasRoom w.old (4 * length s.now) }
    ensures put { PutsText w.old w.new (escaped ascii s.now) }
    ensures upper_bound { w.new.place ≤ w.old.place + 4 * length s.now }
{
    for (i, b) in s.iter().enumerate() {
        let write_out = is_written_out(s, i, ascii);
        put_shown(w, write_out, *b);
    }
}
