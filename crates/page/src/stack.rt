// What the stack may have, as the system tells it in the file /proc/self/limits.
use crate::read_page;
use std::fs;
use std::rt::Files;

// The soft limit in the text of that file, which names it in bytes, or as `unlimited`, after the name of its line.
fn limit_in(text: &str) -> Option<u64> {
    let (_, rest) = text.split_once("Max stack size")?;
    let word = rest.split_whitespace().next()?;
    if word == "unlimited" {
        Some(u64::MAX)
    } else {
        word.parse::<u64>().ok()
    }
}

fn limit_told(rt: &impl Files) -> Option<u64> {
    let mut file = fs::open(rt, "/proc/self/limits").ok()?;
    let mut bytes = [0u8; 4096];
    let end = read_page(&mut file, &mut bytes).ok()?;
    let text = str::from_utf8(&bytes[..end]).ok()?;
    limit_in(text)
}

// How many bytes the stack may have: the soft limit, or what it mostly is, 8,388,608, where the system does not tell.
pub(crate) fn limit(rt: &impl Files) -> u64 {
    limit_told(rt).unwrap_or(8388608)
}
