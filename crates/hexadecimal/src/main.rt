// Reads lines of hexadecimal digits, one section a line at place 0, and prints a line of answer for each:
// `pane R N`, `pass N`, `no NUMBER a b`, `end`, or `bad` (odd, overlong or not hexadecimal).
#![tactic(auto)]

use lines::answered::line_answered;
use lines::program::print_all;
use std::io;

fn main(rt: HostRuntime) -> io::Result<()> {
    let mut chunk = [0u8; 4096];
    let mut bytes = [0u8; 4096];
    let mut out = [0u8; 66];
    // A closure, since no proof is found that the named function itself meets what `print_all` requires.
    let step = |bytes: &[u8], line, out: &mut [u8]| line_answered(bytes, line, out);
    print_all(&rt, step, &mut chunk, &mut bytes, &mut out)
}
