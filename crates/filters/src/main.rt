// Runs stretches through the filters. Each case is a list of words, one a line, floats by their bits: stage, nmcp, the count of samples
// (at most 512), alpha, volume; nmcp coefficients; nmcp increments; the taps (at stage 0 six d11, six d12, six d22 and d21 row by row, else
// the stage rows); the samples. It writes the samples, the coefficients and the taps after the stretch. A case that is cut off, or past
// a limit, ends the program.
#![tactic(auto)]

ghost use Rattle.std.specs.Prelude.{◌≡◌, ◌+◌, ◌-◌, ◌*◌, ◌≤◌, ◌<◌, IfOk, IfSome, length};

use filter::Course;
use mglsa::MelGeneralizedLogSpectrumApproximation;
use mlsa::MelLogSpectrumApproximation;
use std::io;

// The filter of stage 0 whose taps stand at `at`, with so many taps in its rows.
fn filter_at(text: &[u8], at: usize, taps: usize) -> MelLogSpectrumApproximation
    requires { (at + 17 * (18 + taps) ≤ length text.now) × (taps ≤ 384) }
{
    let mut d11 = [0.0; 6];
    let mut d12 = [0.0; 6];
    let mut d21 = [0.0; 384];
    let mut d22 = [0.0; 6];
    words::floats(text, at, &mut d11);
    words::floats(text, at + 17 * 6, &mut d12);
    words::floats(text, at + 17 * 12, &mut d22);
    words::floats(text, at + 17 * 18, &mut d21[0..taps]);
    MelLogSpectrumApproximation { d11, d12, d21, d22 }
}

// Writes the first of the values.
fn print_first(rt: &impl Print, values: &[f64], count: usize) -> io::Result<()> {
    if count <= values.len() {
        words::print_floats(rt, &values[0..count])?;
    }
    Ok(())
}

// Writes the taps of a filter of stage 0.
fn print_filter(rt: &impl Print, f: MelLogSpectrumApproximation, taps: usize) -> io::Result<()> {
    let d11 = f.d11;
    let d12 = f.d12;
    let d21 = f.d21;
    let d22 = f.d22;
    words::print_floats(rt, &d11)?;
    words::print_floats(rt, &d12)?;
    words::print_floats(rt, &d22)?;
    print_first(rt, &d21, taps)
}

// Replays a case of stage 0 whose taps stand at `at`.
fn replay_zero(
    rt: &impl Print,
    text: &[u8],
    at: usize,
    samples: &mut [f64],
    c: &mut [f64],
    course: Course<'_>,
) -> io::Result<()>
    requires in_bounds { (2 ≤ length c.old) × (length c.old ≤ 64) × (length course.increments.now ≡ length c.old) }
    requires taps_in_bounds { at + 17 * (18 + 6 * length c.old) ≤ length text.now }
{
    let taps = 6 * c.len();
    let before = filter_at(text, at, taps);
    let after = filter::zero::stretch(before, samples, c, course);
    words::print_floats(rt, samples)?;
    words::print_floats(rt, c)?;
    print_filter(rt, after, taps)
}

// Replays a case of another stage, whose rows have so many taps.
fn replay_nonzero(
    rt: &impl Print,
    text: &[u8],
    at: usize,
    stages: usize,
    taps: usize,
    samples: &mut [f64],
    c: &mut [f64],
    course: Course<'_>,
) -> io::Result<()>
    requires in_bounds { (2 ≤ length c.old) × (length c.old ≤ 64) × (length course.increments.now ≡ length c.old) }
    requires stages_bound { (stages ≤ 8) × (taps ≤ 512) × (at + 17 * taps ≤ length text.now) }
{
    let mut d = [0.0; 512];
    words::floats(text, at, &mut d[0..taps]);
    let before = MelGeneralizedLogSpectrumApproximation { d };
    let after = filter::nonzero::stretch(before, stages, samples, c, course);
    words::print_floats(rt, samples)?;
    words::print_floats(rt, c)?;
    let rows = after.d;
    print_first(rt, &rows, taps)
}

// So many taps has a case: at stage 0 three lists of six beside its six rows, else a row a stage.
fn taps_of(stages: usize, nmcp: usize) -> usize
    requires { (stages ≤ 8) × (nmcp ≤ 64) }
    ensures bound { result ≤ 512 }
    ensures zero { stages ≡ 0 → result ≡ 18 + 6 * nmcp }
{
    if stages == 0 {
        18 + 6 * nmcp
    } else {
        stages * nmcp
    }
}

// Replays the case at `at`, and answers how many bytes it has: none where it is cut off or past a limit.
fn replay_case(
    rt: &impl Print,
    text: &[u8],
    at: usize,
    stage: u64,
    nmcp: usize,
    count: usize,
) -> io::Result<Option<usize>>
    requires { at ≤ length text.now }
    ensures { IfOk result (λ size. IfSome size (λ n. (0 < n) × (n ≤ length text.now - at))) }
{
    if stage > 8 || nmcp < 2 || nmcp > 64 || count > 512 {
        return Ok(None);
    }
    let stages = stage as usize;
    let taps = taps_of(stages, nmcp);
    let size = 17 * (5 + 2 * nmcp + taps + count);
    if size > text.len() - at {
        return Ok(None);
    }
    let mut c = [0.0; 64];
    let mut increments = [0.0; 64];
    let mut samples = [0.0; 512];
    let alpha = words::float(text, at + 17 * 3);
    let volume = words::float(text, at + 17 * 4);
    let c = &mut c[0..nmcp];
    let increments = &mut increments[0..nmcp];
    let samples = &mut samples[0..count];
    words::floats(text, at + 17 * 5, c);
    words::floats(text, at + 17 * (5 + nmcp), increments);
    words::floats(text, at + 17 * (5 + 2 * nmcp + taps), samples);
    let course = Course {
        increments,
        alpha,
        volume,
    };
    let rows = at + 17 * (5 + 2 * nmcp);
    if stages == 0 {
        replay_zero(rt, text, rows, samples, c, course)?;
    } else {
        replay_nonzero(rt, text, rows, stages, taps, samples, c, course)?;
    }
    Ok(Some(size))
}

// Replays the cases, one after the other. A while: each case says how long it is.
fn replay(rt: &impl Print, text: &[u8]) -> io::Result<()> {
    let mut at = 0;
    while 17 * 5 <= text.len() - at {
        let stage = words::word(text, at);
        let nmcp = words::word(text, at + 17) as usize;
        let count = words::word(text, at + 17 * 2) as usize;
        let Some(size) = replay_case(rt, text, at, stage, nmcp, count)? else {
            return Ok(());
        };
        at += size;
    }
    Ok(())
}

fn main(rt: HostRuntime) -> io::Result<()> {
    let mut text = [0; 65536];
    let count = words::read(&mut rt.stdin(), &mut text)?;
    replay(&rt, &text[..count])
}
