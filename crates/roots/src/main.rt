// Reads lines of sixteen hexadecimal digits, each the bit pattern of a float, and writes the patterns
// of their square roots, a line each: at most 3,855 lines, and nothing for what is no whole line.
#![tactic(auto)]

use std::io;

// Writes the root of the pattern b.
fn write_root(rt: &impl Print, b: u64) -> io::Result<()> {
    words::print_float(rt, root::sqrt(number::bits::float_of(b)))
}

// Writes the root of the pattern on each line.
fn write_roots(rt: &impl Print, text: &[u8]) -> io::Result<()> {
    for line in text.chunks_exact(17) {
        write_root(rt, words::word(line, 0))?;
    }
    Ok(())
}

// The buffer is fixed, and no Vec: what is past 65,536 bytes has never been read.
fn main(rt: HostRuntime) -> io::Result<()> {
    let mut text = [0; 65536];
    let count = words::read(&mut rt.stdin(), &mut text)?;
    write_roots(&rt, &text[..count])
}
