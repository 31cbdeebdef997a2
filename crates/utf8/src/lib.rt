// Well-formed UTF-8 by the Unicode Standard's Table 3-7.
#![tactic(auto)]

ghost use Rattle.std.specs.Prelude.{◌≡◌, ◌<◌, length, drop};
ghost use Rattle.std.specs.Option.{option_copied};
ghost use Rattle.utf8.specs.Utf8.{table, row_of, sequence, ascii_run, is_ascii, well_formed};

// A row of the table as the Standard prints it, in four columns: how many bytes, and the least and the greatest byte at each place. A column that a row lacks is 0 here.
#[derive(Clone, Copy)]
pub struct Row {
    pub count: usize,
    pub low: [u8; 4],
    pub high: [u8; 4],
}

pub const TABLE_3_7: [Row; 9] = [
    Row {
        count: 1,
        low: [0x00, 0, 0, 0],
        high: [0x7F, 0, 0, 0],
    },
    Row {
        count: 2,
        low: [0xC2, 0x80, 0, 0],
        high: [0xDF, 0xBF, 0, 0],
    },
    Row {
        count: 3,
        low: [0xE0, 0xA0, 0x80, 0],
        high: [0xE0, 0xBF, 0xBF, 0],
    },
    Row {
        count: 3,
        low: [0xE1, 0x80, 0x80, 0],
        high: [0xEC, 0xBF, 0xBF, 0],
    },
    Row {
        count: 3,
        low: [0xED, 0x80, 0x80, 0],
        high: [0xED, 0x9F, 0xBF, 0],
    },
    Row {
        count: 3,
        low: [0xEE, 0x80, 0x80, 0],
        high: [0xEF, 0xBF, 0xBF, 0],
    },
    Row {
        count: 4,
        low: [0xF0, 0x90, 0x80, 0x80],
        high: [0xF0, 0xBF, 0xBF, 0xBF],
    },
    Row {
        count: 4,
        low: [0xF1, 0x80, 0x80, 0x80],
        high: [0xF3, 0xBF, 0xBF, 0xBF],
    },
    Row {
        count: 4,
        low: [0xF4, 0x80, 0x80, 0x80],
        high: [0xF4, 0x8F, 0xBF, 0xBF],
    },
];

// The row whose first place takes b, where it stands in the table: nothing of it is copied.
fn row_of(b: u8) -> Option<&'static Row>
    ensures { option_copied result ≡ row_of table b }
{
    let rows: &'static [Row] = &TABLE_3_7;
    rows.iter()
        .find(|row| (row.low[0] <= b) & (b <= row.high[0]))
}

// How many bytes the well-formed sequence at the start has, if there is one.
fn sequence(s: &[u8]) -> Option<usize>
    requires { 0 < length s.now }
    ensures { result ≡ sequence s.now }
{
    let row = row_of(s[0])?;
    let count = row.count;
    if s.len() < count {
        return None;
    }
    // By the place, which the bytes and both lists of the row share.
    for j in 1..count {
        let b = s[j];
        let fits = (row.low[j] <= b) & (b <= row.high[j]);
        if !fits {
            return None;
        }
    }
    Some(count)
}

// What follows the ASCII bytes at the start.
fn after_ascii(s: &[u8]) -> &[u8]
    ensures { result.now ≡ drop (ascii_run s.now) s.now }
{
    let run = s.iter().position(|b| 0x80 <= *b).unwrap_or(s.len());
    &s[run..]
}

pub fn well_formed(s: &[u8]) -> bool
    ensures { result ≡ well_formed s.now }
{
    let mut left = after_ascii(s);
    // No `for`: each turn goes on by the length of the sequence that it found.
    while !left.is_empty() {
        let Some(n) = sequence(left) else {
            return false;
        };
        left = after_ascii(&left[n..]);
    }
    true
}

// No byte is 0x80 or above. Every byte is looked at, so that many can be compared at once: that is why this is no `all`.
pub fn is_ascii(s: &[u8]) -> bool
    ensures { result ≡ is_ascii s.now }
{
    let mut high = false;
    for b in s {
        high |= 0x80 <= *b;
    }
    !high
}
