// Prepares spectra. Each case is a list of words, one a line, floats by their bits: stage, log gain (0 or 1), nmcp, first (0 or 1),
// alpha, beta; nmcp entries of the spectrum; nmcp coefficients that the voice has. It writes the number (0, or 9 where preparing is
// outside), the start coefficients after it and the targets after it, which are zeros before. A case that is cut off, or whose nmcp or
// stage is past its limit, ends the program.
// Arrays are of the largest size that a case may have, a part of them lent: no heap.
#![tactic(auto)]

ghost use Rattle.std.specs.Prelude.{◌≡◌, ◌+◌, ◌*◌, ◌≤◌, length};

use elementary::answer::Outside;
use prepare::mel::prepare_mcp;
use prepare::pairs::prepare_lsp;
use std::io;

// Prepares a spectrum at a stage from 0 to 8.
fn prepare(
    text: &[u8],
    at: usize,
    stage: u64,
    spectrum: &[f64],
    start: &mut [f64],
    targets: &mut [f64],
) -> Result<(), Outside>
    requires at_in_bounds { (at + 17 * 6 ≤ length text.now) × (stage ≤ 8) }
    requires in_bounds { (2 ≤ length spectrum.now) × (length spectrum.now ≤ 64) }
    requires start_len { (length start.old ≡ length spectrum.now) × (length targets.old ≡ length spectrum.now) }
{
    let log = words::word(text, at + 17) == 1;
    let first = words::word(text, at + 17 * 3) == 1;
    let alpha = words::float(text, at + 17 * 4);
    let beta = words::float(text, at + 17 * 5);
    if stage == 0 {
        prepare_mcp(spectrum, alpha, beta, first, start, targets)
    } else {
        prepare_lsp(spectrum, alpha, beta, log, stage, first, start, targets)
    }
}

// Replays the case at `at`, with room for its spectrum and for what comes of it.
fn replay_case(
    rt: &impl Print,
    text: &[u8],
    at: usize,
    stage: u64,
    spectrum: &mut [f64],
    start: &mut [f64],
    targets: &mut [f64],
) -> io::Result<()>
    requires spectrum_in_bounds { (at + 17 * (6 + 2 * length spectrum.old) ≤ length text.now) × (stage ≤ 8) }
    requires in_bounds { (2 ≤ length spectrum.old) × (length spectrum.old ≤ 64) }
    requires start_len { (length start.old ≡ length spectrum.old) × (length targets.old ≡ length spectrum.old) }
{
    words::floats(text, at + 17 * 6, spectrum);
    words::floats(text, at + 17 * (6 + spectrum.len()), start);
    let prepared = prepare(text, at, stage, spectrum, start, targets);
    words::print_word(rt, limits::number(prepared))?;
    words::print_floats(rt, start)?;
    words::print_floats(rt, targets)
}

// Replays the case at `at` in arrays of its own.
fn replay_in_arrays(
    rt: &impl Print,
    text: &[u8],
    at: usize,
    stage: u64,
    nmcp: usize,
) -> io::Result<()>
    requires { (at + 17 * (6 + 2 * nmcp) ≤ length text.now) × (stage ≤ 8) × (2 ≤ nmcp) × (nmcp ≤ 64) }
{
    let mut spectrum = [0.0; 64];
    let mut start = [0.0; 64];
    let mut targets = [0.0; 64];
    replay_case(
        rt,
        text,
        at,
        stage,
        &mut spectrum[0..nmcp],
        &mut start[0..nmcp],
        &mut targets[0..nmcp],
    )
}

// Replays the cases, one after the other. Each has six words, and two more for each entry.
// A while: the cases are of as many sizes, so that each says where the next one begins.
fn replay(rt: &impl Print, text: &[u8]) -> io::Result<()> {
    let mut at = 0;
    while 17 * 6 <= text.len() - at {
        let stage = words::word(text, at);
        let nmcp = words::word(text, at + 17 * 2) as usize;
        if stage > 8 || nmcp < 2 || nmcp > 64 {
            return Ok(());
        }
        let size = 17 * (6 + 2 * nmcp);
        if size > text.len() - at {
            return Ok(());
        }
        replay_in_arrays(rt, text, at, stage, nmcp)?;
        at += size;
    }
    Ok(())
}

fn main(rt: HostRuntime) -> io::Result<()> {
    let mut text = [0; 65536];
    let count = words::read(&mut rt.stdin(), &mut text)?;
    replay(&rt, &text[..count])
}
