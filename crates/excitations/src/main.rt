// Replays stretches of the excitation. Each case is a list of words, one a line, floats by their bits: nlpf and n, the count of
// samples wanted; pitch, counter, increment and end; next, used and the 64 values of the queue; nlpf taps of the line; nlpf taps of
// the filter. It writes the count of samples made and the samples; and then the same state after them, from the pitch to the line.
// A case that is cut off, or whose nlpf or n is above 64, ends the program.
// Arrays are of the largest size that a case may have, a part of them lent: no heap.
#![tactic(auto)]

ghost use Rattle.std.specs.Prelude.{◌≡◌, ◌+◌, ◌*◌, ◌≤◌, length};

mod read;

use excitation::Filled;
use noise::Random;
use pulse::Pulse;
use std::io;

// Writes the pulse train and the noise after a stretch.
fn print_state(rt: &impl Print, filled: Filled) -> io::Result<()> {
    let Pulse {
        pitch,
        counter,
        increment,
        end,
    } = filled.pulse;
    words::print_floats(rt, &[pitch, counter, increment, end])?;
    let Random { next, used, queue } = filled.random;
    words::print_word(rt, next)?;
    words::print_word(rt, used as u64)?;
    words::print_floats(rt, &queue)
}

// Replays the case at `at`: its taps go to the line and lpf, and `out` is as long as samples are wanted.
fn replay_case(
    rt: &impl Print,
    text: &[u8],
    at: usize,
    line: &mut [f64],
    lpf: &mut [f64],
    out: &mut [f64],
) -> io::Result<()>
    requires line_in_bounds { at + 17 * (72 + 2 * length line.old) ≤ length text.now }
    requires lpf_len { length lpf.old ≡ length line.old }
{
    let pulse = read::pulse(text, at + 17 * 2);
    let random = read::random(text, at + 17 * 6);
    words::floats(text, at + 17 * 72, line);
    words::floats(text, at + 17 * (72 + line.len()), lpf);
    let filled = excitation::stretch(pulse, random, line, lpf, out);
    let made = filled.made;
    words::print_word(rt, made as u64)?;
    words::print_floats(rt, &out[..made])?;
    print_state(rt, filled)?;
    words::print_floats(rt, line)
}

// Replays the case at `at` in arrays of its own.
fn replay_in_arrays(
    rt: &impl Print,
    text: &[u8],
    at: usize,
    nlpf: usize,
    n: usize,
) -> io::Result<()>
    requires nlpf_in_bounds { at + 17 * (72 + 2 * nlpf) ≤ length text.now }
    requires nlpf_bound { (nlpf ≤ 64) × (n ≤ 64) }
{
    let mut line = [0.0; 64];
    let mut lpf = [0.0; 64];
    let mut out = [0.0; 64];
    replay_case(
        rt,
        text,
        at,
        &mut line[..nlpf],
        &mut lpf[..nlpf],
        &mut out[..n],
    )
}

// Replays the cases, one after the other. Each has 72 words, and two more for each tap. A while: each case says how long it is.
fn replay(rt: &impl Print, text: &[u8]) -> io::Result<()> {
    let mut at = 0;
    while 17 * 72 <= text.len() - at {
        let nlpf = words::word(text, at) as usize;
        let n = words::word(text, at + 17) as usize;
        if nlpf > 64 || n > 64 {
            return Ok(());
        }
        let size = 17 * (72 + 2 * nlpf);
        if size > text.len() - at {
            return Ok(());
        }
        replay_in_arrays(rt, text, at, nlpf, n)?;
        at += size;
    }
    Ok(())
}

fn main(rt: HostRuntime) -> io::Result<()> {
    let mut text = [0; 65536];
    let count = words::read(&mut rt.stdin(), &mut text)?;
    replay(&rt, &text[..count])
}
