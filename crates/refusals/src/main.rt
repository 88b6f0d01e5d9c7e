// Writes what the calls answer where one refusal applies, and where two apply: a line each, of the call, the numbers that apply (0: none)
// and the number answered. Of two numbers the first is the one that comes first in document 01's table. Lines with a name in place of the
// numbers show a limit, or another way to a number. README.md says what each number stands for here.
// Arrays are of the largest size that a case may have, a part of them lent: no heap.
#![tactic(auto)]

ghost use Rattle.std.specs.Prelude.{◌≡◌, ◌+◌, ◌≤◌, length};

use configuration::Configuration;
use refusing::Frame;
use std::io;
use voice::Voice;
use voice::answers::Refusal;

// The samples of one frame, and of as many as the meter has room for: 5 divides it, and 2^63 - 1 is 2 more.
const ONE_FRAME: u64 = 5;

const ALL_FRAMES: u64 = 9223372036854775805;

// Entries of a spectrum that are fine, the largest in size that one may have, and one beyond it.
const GAIN: f64 = 1.0;

const FIRST_PAIR: f64 = 1.0;

const LARGEST: f64 = -1048576.0;

const BEYOND: f64 = -2097152.0;

// A log F0 that is fine.
const LF0: f64 = 5.0;

// Numbers of this program's own. Line spectral pairs without postfilter: the repair then brings a first pair of any size back, and only a gain of 0 is outside.
fn configuration() -> Configuration {
    Configuration {
        nmcp: 4,
        nlpf: 2,
        stage: 1,
        log: false,
        rate: 16000,
        alpha: 0.42,
        beta: 0.0,
        volume: 1.0,
        fperiod: 5,
        nodata: -10000000000.0,
        low: 3.0,
        high: 9.9,
    }
}

// Writes the end of a line: the number answered.
fn print_number(rt: &impl Print, number: u64) -> io::Result<()> {
    println!(rt; ": {number}")
}

// Writes a line for a situation that has a name.
fn print_named(rt: &impl Print, call: &[u8], name: &[u8], number: u64) -> io::Result<()> {
    rt.write_all(call)?;
    rt.write_all(b" ")?;
    rt.write_all(name)?;
    print_number(rt, number)
}

// Writes a line for a situation in which these refusals apply.
fn print_these(rt: &impl Print, call: &[u8], these: &[Refusal], number: u64) -> io::Result<()> {
    rt.write_all(call)?;
    if these.is_empty() {
        print!(rt; " 0")?;
    }
    for (i, refusal) in these.iter().enumerate() {
        if i > 0 {
            print!(rt; " and")?;
        }
        let row = refusal.number();
        print!(rt; " {row}")?;
    }
    print_number(rt, number)
}

// Opens a voice.
fn open(rt: &impl Print, name: &[u8], configuration: Configuration) -> io::Result<()> {
    let opened = voice::open(configuration);
    print_named(rt, b"open", name, opened.number)
}

// Opens voices with a whole number past its limit, and one at the limit.
fn open_with_numbers(rt: &impl Print) -> io::Result<()> {
    let mut c = configuration();
    c.nmcp = 2;
    open(rt, b"nmcp 2", c)?;
    c.nmcp = 1;
    open(rt, b"nmcp 1", c)?;
    c.nmcp = 65;
    open(rt, b"nmcp 65", c)?;
    c = configuration();
    c.nlpf = 65;
    open(rt, b"nlpf 65", c)?;
    c = configuration();
    c.stage = 9;
    open(rt, b"stage 9", c)?;
    c = configuration();
    c.rate = 0;
    open(rt, b"rate 0", c)?;
    c.rate = 192001;
    open(rt, b"rate 192001", c)?;
    c = configuration();
    c.fperiod = 0;
    open(rt, b"fperiod 0", c)?;
    c.fperiod = 4801;
    open(rt, b"fperiod 4801", c)
}

// Opens voices with a float past its limit.
fn open_with_floats(rt: &impl Print) -> io::Result<()> {
    let mut c = configuration();
    c.alpha = 1.0;
    open(rt, b"alpha 1", c)?;
    c = configuration();
    c.beta = 1.5;
    open(rt, b"beta 1.5", c)?;
    c = configuration();
    c.volume = 1.0 / 0.0;
    open(rt, b"volume infinite", c)?;
    c = configuration();
    c.low = -21.0;
    open(rt, b"low -21", c)?;
    c.low = 10.0;
    open(rt, b"low above high", c)?;
    c = configuration();
    c.high = 21.0;
    open(rt, b"high 21", c)?;
    c = configuration();
    c.nodata = 0.0 / 0.0;
    open(rt, b"no-data not a number", c)
}

// A length, or one more.
fn size(least: usize, more: bool) -> usize
    requires { least ≤ 4 }
    ensures { result ≤ least + 1 }
{
    if more { least + 1 } else { least }
}

// The samples of the frames that a voice was given.
fn samples(full: bool) -> u64
    ensures { 1 ≤ result }
{
    if full { ALL_FRAMES } else { ONE_FRAME }
}

// A voice that was given one frame, or all that the meter has room for, and whose last sample is left or not; idle by its noise. Three flags and no enum: any two may meet.
fn voice_where(idle: bool, left: bool, full: bool) -> Voice {
    let counted = samples(full);
    let opened = voice::open(configuration());
    let mut voice = opened.voice;
    let mut random = voice.random;
    random.used = if idle { 65 } else { 64 };
    voice.random = random;
    voice.first = false;
    voice.left = 0;
    voice.meter = counted;
    if left {
        voice.left = 1;
        voice.meter = counted - 1;
    }
    voice
}

// The voice of a situation in which these apply, as far as a voice has to do with them.
fn voice_of(these: &[Refusal]) -> Voice {
    voice_where(
        these.contains(&Refusal::VoiceIdle),
        these.contains(&Refusal::SamplesLeft),
        these.contains(&Refusal::MeterFull),
    )
}

// The log F0 of such a situation.
fn lf0_of(these: &[Refusal]) -> f64 {
    if these.contains(&Refusal::NotFinite) {
        1.0 / 0.0
    } else {
        LF0
    }
}

// The spectrum of such a situation, an entry longer than it should be.
fn spectrum_of(these: &[Refusal]) -> [f64; 5]
    ensures { 5 ≡ length result }
{
    let gain = if these.contains(&Refusal::ArgumentOutside) {
        0.0
    } else {
        GAIN
    };
    let pair = if these.contains(&Refusal::EntryBeyond) {
        BEYOND
    } else {
        FIRST_PAIR
    };
    [gain, pair, 1.5, 2.0, 2.5]
}

// Gives a frame where these apply.
fn give(rt: &impl Print, these: &[Refusal]) -> io::Result<()> {
    let spectrum = spectrum_of(these);
    let entries = size(4, these.contains(&Refusal::SpectrumLength));
    let lpf = [0.5, 0.25, 0.125];
    let taps = size(2, these.contains(&Refusal::TapCount));
    let frame = Frame {
        lf0: lf0_of(these),
        spectrum: &spectrum[..entries],
        lpf: &lpf[..taps],
    };
    let answered = giving::give(voice_of(these), frame);
    print_these(rt, b"give", these, answered.number)
}

// Gives a whole frame where these apply.
fn whole_frame(rt: &impl Print, these: &[Refusal]) -> io::Result<()> {
    let spectrum = spectrum_of(these);
    let entries = size(4, these.contains(&Refusal::SpectrumLength));
    let lpf = [0.5, 0.25, 0.125];
    let taps = size(2, these.contains(&Refusal::TapCount));
    let frame = Frame {
        lf0: lf0_of(these),
        spectrum: &spectrum[..entries],
        lpf: &lpf[..taps],
    };
    let mut out = [0.0; 5];
    let room = size(4, !these.contains(&Refusal::BufferShort));
    let drawn = whole::whole_frame(voice_of(these), frame, &mut out[..room], 0);
    print_these(rt, b"whole frame", these, drawn.number)
}

// Draws where these apply.
fn draw(rt: &impl Print, these: &[Refusal]) -> io::Result<()> {
    let voice = voice_where(
        these.contains(&Refusal::VoiceIdle),
        !these.contains(&Refusal::NothingLeft),
        false,
    );
    let mut out = [0.0; 5];
    let drawn = drawing::draw(voice, &mut out, 0);
    print_these(rt, b"draw", these, drawn.number)
}

// Makes the call where none of the refusals applies, where each does, and where each two do.
fn call_all<F: Fn(&[Refusal]) -> io::Result<()>>(call: F, order: &[Refusal]) -> io::Result<()>
    requires { F.IsAlwaysCallable call }
{
    call(&[])?;
    for i in 0..order.len() {
        call(&[order[i]])?;
        for j in i + 1..order.len() {
            call(&[order[i], order[j]])?;
        }
    }
    Ok(())
}

// A frame of these.
fn framed<'a>(lf0: f64, spectrum: &'a [f64], lpf: &'a [f64]) -> Frame<'a> {
    Frame { lf0, spectrum, lpf }
}

// Gives a frame that has a name to a voice of that stage and beta.
fn give_named(rt: &impl Print, name: &[u8], stage: u64, beta: f64, frame: Frame) -> io::Result<()> {
    let mut c = configuration();
    c.stage = stage;
    c.beta = beta;
    let mut voice = voice_where(false, false, false);
    voice.configuration = c;
    let answered = giving::give(voice, frame);
    print_named(rt, b"give", name, answered.number)
}

// Other ways to 6 and 9, and where 7 begins and does not apply.
fn give_others(rt: &impl Print) -> io::Result<()> {
    let lpf = [0.5, 0.25];
    let top = 1.0 / 0.0;
    let infinite = [GAIN, top, 1.5, 2.0];
    let largest = [GAIN, LARGEST, 1.5, 2.0];
    let beyond = [GAIN, BEYOND, 1.5, 2.0];
    let equal = [GAIN, 1.5, 1.5, 1.5];
    let fine = [GAIN, FIRST_PAIR, 1.5, 2.0];
    let tap = [0.5, top];
    give_named(rt, b"infinite entry", 1, 0.0, framed(LF0, &infinite, &lpf))?;
    give_named(rt, b"infinite tap", 1, 0.0, framed(LF0, &fine, &tap))?;
    give_named(
        rt,
        b"lf0 not a number",
        1,
        0.0,
        framed(top - top, &fine, &lpf),
    )?;
    give_named(rt, b"largest entry", 1, 0.0, framed(LF0, &largest, &lpf))?;
    give_named(
        rt,
        b"entry beyond at stage 0",
        0,
        0.0,
        framed(LF0, &beyond, &lpf),
    )?;
    give_named(rt, b"equal pairs", 1, 0.5, framed(LF0, &equal, &lpf))
}

// What can be refused of a frame that is given, in the order of the table.
const OF_GIVE: [Refusal; 8] = [
    Refusal::VoiceIdle,
    Refusal::SamplesLeft,
    Refusal::SpectrumLength,
    Refusal::TapCount,
    Refusal::NotFinite,
    Refusal::EntryBeyond,
    Refusal::MeterFull,
    Refusal::ArgumentOutside,
];

// And of a whole frame.
const OF_WHOLE: [Refusal; 9] = [
    Refusal::VoiceIdle,
    Refusal::BufferShort,
    Refusal::SamplesLeft,
    Refusal::SpectrumLength,
    Refusal::TapCount,
    Refusal::NotFinite,
    Refusal::EntryBeyond,
    Refusal::MeterFull,
    Refusal::ArgumentOutside,
];

fn main(rt: HostRuntime) -> io::Result<()> {
    open_with_numbers(&rt)?;
    open_with_floats(&rt)?;
    call_all(|these| give(&rt, these), &OF_GIVE)?;
    give_others(&rt)?;
    call_all(|these| whole_frame(&rt, these), &OF_WHOLE)?;
    draw(&rt, &[])?;
    draw(&rt, &[Refusal::VoiceIdle])?;
    draw(&rt, &[Refusal::NothingLeft])?;
    draw(&rt, &[Refusal::VoiceIdle, Refusal::NothingLeft])
}
