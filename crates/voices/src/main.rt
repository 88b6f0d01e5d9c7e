// Opens voices and makes calls of them. Each case is a list of words, one a line, floats by their bits: the twelve slots of the
// configuration; the count of calls; the calls. A call is its kind (0 give, 1 draw, 2 whole frame, 3 another meter), the length of its
// buffer (at most 512), its start, lf0, the counts of spectrum entries and of taps (at most 80 each), the entries, the taps. By kind 3 the
// voice is handed on with another meter, which stands in the place of the start; its other words are as in every call. The program
// writes the number of the open; of each call of the kinds 0 to 2 the number, and but of a give the samples made and the whole buffer,
// which holds ones before; at the end of a case the meter, the samples left, the first flag, the pulse and the coefficients. A case that
// is cut off, or past a limit, ends the program.
// Arrays are of the largest size that a case may have, a part of them lent: no heap.
#![tactic(auto)]

ghost use Rattle.std.specs.Prelude.{◌+◌, ◌*◌, ◌<◌, ◌≤◌, IfOk, IfSome, length};

use configuration::Configuration;
use drawing::Drawn;
use refusing::Frame;
use std::io;
use voice::Voice;

// What stands in a buffer before a call.
const BEFORE: f64 = 1.0;

// The kinds of calls.
#[derive(Clone, Copy)]
enum Kind {
    Give,
    Draw,
    Whole,
    Meter,
}

// A number that is the kind of no call.
#[derive(Clone, Copy)]
struct NoKind;

impl TryFrom<u64> for Kind {
    type Error = NoKind;

    fn try_from(word: u64) -> Result<Self, NoKind> {
        match word {
            0 => Ok(Self::Give),
            1 => Ok(Self::Draw),
            2 => Ok(Self::Whole),
            3 => Ok(Self::Meter),
            _ => Err(NoKind),
        }
    }
}

// The place in the text after calls that were read to their end, and the voice after them.
#[derive(Clone, Copy)]
struct Replayed {
    end: usize,
    voice: Voice,
}

// The configuration whose slots stand at `at`.
fn configuration_at(text: &[u8], at: usize) -> Configuration
    requires { at + 17 * 12 ≤ length text.now }
{
    Configuration {
        nmcp: words::word(text, at) as usize,
        nlpf: words::word(text, at + 17) as usize,
        stage: words::word(text, at + 17 * 2),
        log: words::word(text, at + 17 * 3) != 0,
        rate: words::word(text, at + 17 * 4),
        alpha: words::float(text, at + 17 * 5),
        beta: words::float(text, at + 17 * 6),
        volume: words::float(text, at + 17 * 7),
        fperiod: words::word(text, at + 17 * 8) as usize,
        nodata: words::float(text, at + 17 * 9),
        low: words::float(text, at + 17 * 10),
        high: words::float(text, at + 17 * 11),
    }
}

// Writes the first nmcp coefficients. The test is for the index: no voice that open returns has more than 64.
fn print_coefficients(rt: &impl Print, nmcp: usize, coefficients: [f64; 64]) -> io::Result<()> {
    if nmcp <= 64 {
        words::print_floats(rt, &coefficients[0..nmcp])?;
    }
    Ok(())
}

// Writes what a voice has come to.
fn print_voice(rt: &impl Print, voice: Voice) -> io::Result<()> {
    let configuration = voice.configuration;
    let pulse = voice.pulse;
    words::print_word(rt, voice.meter)?;
    words::print_word(rt, voice.left as u64)?;
    words::print_word(rt, voice.first as u64)?;
    words::print_float(rt, pulse.pitch)?;
    words::print_float(rt, pulse.counter)?;
    words::print_float(rt, pulse.increment)?;
    words::print_float(rt, pulse.end)?;
    let coefficients = voice.coefficients;
    print_coefficients(rt, configuration.nmcp, coefficients)
}

// Gives a frame, and writes the number.
fn give(rt: &impl Print, voice: Voice, frame: Frame) -> io::Result<Voice> {
    let answered = giving::give(voice, frame);
    words::print_word(rt, answered.number)?;
    Ok(answered.voice)
}

// Writes what a call that makes samples answers, and its whole buffer.
fn print_drawn(rt: &impl Print, drawn: Drawn, out: &[f64]) -> io::Result<Voice> {
    words::print_word(rt, drawn.number)?;
    words::print_word(rt, drawn.made as u64)?;
    words::print_floats(rt, out)?;
    Ok(drawn.voice)
}

// Makes the call at `at`, with room for its numbers, and writes what it answers.
fn make_call(
    rt: &impl Print,
    text: &[u8],
    at: usize,
    kind: Kind,
    voice: Voice,
    spectrum: &mut [f64],
    lpf: &mut [f64],
    out: &mut [f64],
) -> io::Result<Voice>
    requires lpf_in_bounds { at + 17 * (6 + length spectrum.old + length lpf.old) ≤ length text.now }
    requires spectrum_len_bound { (length spectrum.old ≤ 80) × (length lpf.old ≤ 80) }
{
    let third = words::word(text, at + 17 * 2);
    let start = third as usize;
    words::floats(text, at + 17 * 6, spectrum);
    words::floats(text, at + 17 * (6 + spectrum.len()), lpf);
    let frame = Frame {
        lf0: words::float(text, at + 17 * 3),
        spectrum,
        lpf,
    };
    match kind {
        Kind::Give => give(rt, voice, frame),
        Kind::Draw => print_drawn(rt, drawing::draw(voice, out, start), out),
        Kind::Whole => print_drawn(rt, whole::whole_frame(voice, frame, out, start), out),
        Kind::Meter => Ok(Voice {
            meter: third,
            ..voice
        }),
    }
}

// Makes the call at `at`, of which so many words are known to be there, in arrays of its own.
fn call_in_arrays(
    rt: &impl Print,
    text: &[u8],
    at: usize,
    kind: Kind,
    voice: Voice,
    room: usize,
    entries: usize,
    taps: usize,
) -> io::Result<Voice>
    requires { (at + 17 * (6 + entries + taps) ≤ length text.now) × (room ≤ 512) × (entries ≤ 80) × (taps ≤ 80) }
{
    let mut spectrum = [0.0; 80];
    let mut lpf = [0.0; 80];
    let mut out = [BEFORE; 512];
    make_call(
        rt,
        text,
        at,
        kind,
        voice,
        &mut spectrum[0..entries],
        &mut lpf[0..taps],
        &mut out[0..room],
    )
}

// Replays the call at `at` where it is there and within the limits.
fn replay_call(
    rt: &impl Print,
    text: &[u8],
    at: usize,
    voice: Voice,
) -> io::Result<Option<Replayed>>
    requires { at ≤ length text.now }
    ensures { IfOk result (λ o. IfSome o (λ r. (at ≤ r.end) × (r.end ≤ length text.now))) }
{
    if 17 * 6 > text.len() - at {
        return Ok(None);
    }
    let Ok(kind) = Kind::try_from(words::word(text, at)) else {
        return Ok(None);
    };
    let room = words::word(text, at + 17) as usize;
    let entries = words::word(text, at + 17 * 4) as usize;
    let taps = words::word(text, at + 17 * 5) as usize;
    if room > 512 || entries > 80 || taps > 80 {
        return Ok(None);
    }
    let size = 17 * (6 + entries + taps);
    if size > text.len() - at {
        return Ok(None);
    }
    Ok(Some(Replayed {
        end: at + size,
        voice: call_in_arrays(rt, text, at, kind, voice, room, entries, taps)?,
    }))
}

// Replays so many calls from `at` on, one after the other.
fn replay_calls(
    rt: &impl Print,
    text: &[u8],
    at: usize,
    count: u64,
    opened: Voice,
) -> io::Result<Option<Replayed>>
    requires { at ≤ length text.now }
    ensures { IfOk result (λ o. IfSome o (λ r. (at ≤ r.end) × (r.end ≤ length text.now))) }
{
    let mut end = at;
    let mut voice = opened;
    for made in 0..count {
        let Some(replayed) = replay_call(rt, text, end, voice)? else {
            return Ok(None);
        };
        end = replayed.end;
        voice = replayed.voice;
    }
    Ok(Some(Replayed { end, voice }))
}

// Replays the case at `at`, and answers where it ends: none where it is cut off or past a limit.
fn replay_case(rt: &impl Print, text: &[u8], at: usize) -> io::Result<Option<usize>>
    requires { at + 17 * 13 ≤ length text.now }
    ensures { IfOk result (λ o. IfSome o (λ end. (at < end) × (end ≤ length text.now))) }
{
    let configuration = configuration_at(text, at);
    let count = words::word(text, at + 17 * 12);
    let opened = voice::open(configuration);
    words::print_word(rt, opened.number)?;
    let Some(replayed) = replay_calls(rt, text, at + 17 * 13, count, opened.voice)? else {
        return Ok(None);
    };
    print_voice(rt, replayed.voice)?;
    Ok(Some(replayed.end))
}

// Replays the cases, one after the other. A while: each case says how long it is.
fn replay(rt: &impl Print, text: &[u8]) -> io::Result<()> {
    let mut at = 0;
    while 17 * 13 <= text.len() - at {
        let Some(end) = replay_case(rt, text, at)? else {
            return Ok(());
        };
        at = end;
    }
    Ok(())
}

fn main(rt: HostRuntime) -> io::Result<()> {
    let mut text = [0; 65536];
    let count = words::read(&mut rt.stdin(), &mut text)?;
    replay(&rt, &text[..count])
}
