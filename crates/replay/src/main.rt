// Reads lines of hexadecimal digits, one section a line at place 0, as the program hexadecimal does, and writes each pane that it reads back at place 0:
// `pane R N SECTION` with the section's bytes in hexadecimal, or `pane R N no NUMBER a b` where the write is refused; `pass N`, `no NUMBER a b`, `end`, or `bad`. Its stored lines and
// answers are made by the program `answers` of differential/: the sections read, and the bytes that nnbfl writes for them, but for 143 lines that nnbfl has no answer for.
#![tactic(auto)]

use lines::back::line_written_back;
use lines::program::print_all;
use std::io;

fn main(rt: HostRuntime) -> io::Result<()> {
    let mut chunk = [0u8; 4096];
    let mut bytes = [0u8; 4096];
    let mut out = [0u8; 65603];
    // A closure, since no proof is found that the named function itself meets what `print_all` requires.
    let step = |bytes: &[u8], line, out: &mut [u8]| line_written_back(bytes, line, out);
    print_all(&rt, step, &mut chunk, &mut bytes, &mut out)
}
