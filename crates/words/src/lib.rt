// Text of one word a line: sixteen hexadecimal digits, the bits of a number, and a line end.
// The programs read 65,536 bytes at most and nothing past them, so their buffers are of that size.
// Each has its own loop over its cases: a closure for a case would say the same facts on the place again in its clauses, and is no plainer.
#![tactic(auto)]

ghost use Rattle.std.specs.Prelude.{◌+◌, ◌*◌, ◌≤◌, ◌<◌, IfOk, length};

use std::io;
use std::io::Read;

// The value of a digit. Any other character counts as 0, as the programs have always taken it.
fn digit(c: u8) -> u64
    ensures { result < 16 }
{
    match c {
        b'0'..=b'9' => (c - b'0') as u64,
        b'a'..=b'f' => (c - b'a') as u64 + 10,
        _ => 0,
    }
}

// The number that the sixteen digits from `at` on spell.
pub fn word(text: &[u8], at: usize) -> u64
    requires { at + 16 ≤ length text.now }
{
    let mut n: u64 = 0;
    for i in 0..16 {
        n = (n << 4) + digit(text[at + i]);
    }
    n
}

// The float whose bits the word at `at` spells.
pub fn float(text: &[u8], at: usize) -> f64
    requires { at + 16 ≤ length text.now }
{
    number::bits::float_of(word(text, at))
}

// Fills the values with the floats of the words from `at` on. Every line is of 17 bytes.
pub fn floats(text: &[u8], at: usize, values: &mut [f64])
    requires { at + 17 * length values.old ≤ length text.now }
{
    for i in 0..values.len() {
        values[i] = float(text, at + 17 * i);
    }
}

// Reads into the text until it is full or the input ends, and answers how many bytes there are. A while: it goes on by as much as comes.
pub fn read(input: &mut impl Read, text: &mut [u8]) -> io::Result<usize>
    ensures { IfOk result (λ n. n ≤ length text.new) }
{
    let mut count = 0;
    while count < text.len() {
        let more = input.read(&mut text[count..])?;
        if more == 0 {
            return Ok(count);
        }
        count += more;
    }
    Ok(count)
}

// Writes b, a line.
pub fn print_word(rt: &impl Print, b: u64) -> io::Result<()> {
    println!(rt; "{b:016x}")
}

// Writes the bits of x, a line; those of a NaN are always the same.
pub fn print_float(rt: &impl Print, x: f64) -> io::Result<()> {
    print_word(rt, number::bits::bits_of(x))
}

// Writes the bits of each of the values.
pub fn print_floats(rt: &impl Print, values: &[f64]) -> io::Result<()> {
    for x in values {
        print_float(rt, *x)?;
    }
    Ok(())
}
