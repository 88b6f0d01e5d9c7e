// Runs document 01's numbers to meet and writes a line for each: the item, and what came out. Floats go by their bits, an answer before the
// array beside it; numbers of the table are in decimal. README.md says what is asked in each, and where items 6 and 8 are.
#![tactic(auto)]

ghost use Rattle.std.specs.Prelude.{◌≡◌, ◌≤◌, length};

use configuration::Configuration;
use lanes::five::Five;
use lanes::{Pair, five};
use refusing::Frame;
use std::io;

// A log F0 that is fine.
const LF0: f64 = 5.0;

// Mel-cepstra of the usual order, without filter taps. Not shared: each program has numbers of its own.
fn configuration() -> Configuration {
    Configuration {
        nmcp: 25,
        nlpf: 0,
        stage: 0,
        log: false,
        rate: 16000,
        alpha: 0.42,
        beta: 0.0,
        volume: 1.0,
        fperiod: 80,
        nodata: -10000000000.0,
        low: 3.0,
        high: 9.9,
    }
}

// Begins a line.
fn print_item(rt: &impl Print, item: u64) -> io::Result<()> {
    print!(rt; "item {item}:")
}

// Writes a number on it.
fn print_number(rt: &impl Print, number: u64) -> io::Result<()> {
    print!(rt; " {number}")
}

// Writes a float on it.
fn print_float(rt: &impl Print, x: f64) -> io::Result<()> {
    let bits = number::bits::bits_of(x);
    print!(rt; " {bits:016x}")
}

// Writes each of the values on it; words' own function writes a line for each.
fn print_floats(rt: &impl Print, values: &[f64]) -> io::Result<()> {
    for x in values {
        print_float(rt, *x)?;
    }
    Ok(())
}

// Ends it.
fn end_line(rt: &impl Print) -> io::Result<()> {
    println!(rt; "")
}

// Items 1 and 2: the answer of `fir` and the taps after it, in the row by itself of the five that go at once, with zeros in the others.
fn filter(
    rt: &impl Print,
    item: u64,
    d: &mut [f64],
    x: f64,
    alpha: f64,
    c: &[f64],
) -> io::Result<()>
    requires { (2 ≤ length d.old) × (length c.now ≡ length d.old) × (length d.old ≤ 4) }
{
    let mut first = [0.0; 8];
    let mut second = [0.0; 8];
    let heads = Five {
        first: Pair { a: 0.0, b: 0.0 },
        second: Pair { a: 0.0, b: 0.0 },
        last: x,
    };
    let y = five::fir(&mut first, &mut second, d, heads, alpha, c);
    print_item(rt, item)?;
    print_float(rt, y.last)?;
    print_floats(rt, d)?;
    end_line(rt)
}

// Items 3 and 4: the coefficients of [1, 2, 4], and the mel-cepstrum that those lead back to.
fn coefficients(rt: &impl Print) -> io::Result<()> {
    let mut b = [0.0; 3];
    cepstrum::cepstrum::mc2b(&[1.0, 2.0, 4.0], 0.5, &mut b);
    print_item(rt, 3)?;
    print_floats(rt, &b)?;
    end_line(rt)?;
    let mut c = [0.0; 3];
    cepstrum::coefficients::b2mc(&b, 0.5, &mut c);
    print_item(rt, 4)?;
    print_floats(rt, &c)?;
    end_line(rt)
}

// Item 5: m2 is 1 where the first two entries are looked at.
fn warped(rt: &impl Print) -> io::Result<()> {
    let g = cepstrum::cepstrum::freqt(&[1.0, 2.0], 0.5);
    print_item(rt, 5)?;
    print_floats(rt, &g[0..2])?;
    end_line(rt)
}

// Item 7.
fn repaired(rt: &impl Print) -> io::Result<()> {
    let mut lsp = [5.0, 0.0];
    stability::check_lsp_stability(&mut lsp);
    print_item(rt, 7)?;
    print_floats(rt, &lsp)?;
    end_line(rt)
}

// Item 9: open with that nmcp.
fn open_with(rt: &impl Print, nmcp: usize) -> io::Result<()> {
    let mut c = configuration();
    c.nmcp = nmcp;
    let opened = voice::open(c);
    print_number(rt, opened.number)
}

// Items 10 and 12: a frame for a fresh voice.
fn give_fresh(rt: &impl Print, c: Configuration, spectrum: &[f64]) -> io::Result<()> {
    let opened = voice::open(c);
    let fresh = opened.voice;
    let frame = Frame {
        lf0: LF0,
        spectrum,
        lpf: &[],
    };
    let answered = giving::give(fresh, frame);
    print_number(rt, answered.number)
}

// Item 11: draw on a fresh voice.
fn draw_fresh(rt: &impl Print) -> io::Result<()> {
    let opened = voice::open(configuration());
    let fresh = opened.voice;
    let mut out = [0.0; 80];
    let drawn = drawing::draw(fresh, &mut out, 0);
    print_number(rt, drawn.number)
}

// Item 12: entries 1, 2 and 3 are equal, at that stage.
fn give_equal(rt: &impl Print, stage: u64) -> io::Result<()> {
    let mut c = configuration();
    c.nmcp = 4;
    c.stage = stage;
    c.beta = 0.5;
    give_fresh(rt, c, &[1.0, 0.5, 0.5, 0.5])
}

fn main(rt: HostRuntime) -> io::Result<()> {
    filter(
        &rt,
        1,
        &mut [0.0, 1.0, 2.0, 3.0],
        5.0,
        0.0,
        &[0.0, 0.0, 10.0, 100.0],
    )?;
    filter(&rt, 2, &mut [0.0, 4.0], 2.0, 0.5, &[0.0, 0.0])?;
    coefficients(&rt)?;
    warped(&rt)?;
    repaired(&rt)?;
    print_item(&rt, 9)?;
    open_with(&rt, 1)?;
    open_with(&rt, 2)?;
    end_line(&rt)?;
    print_item(&rt, 10)?;
    let spectrum = [0.0; 26];
    give_fresh(&rt, configuration(), &spectrum[0..24])?;
    give_fresh(&rt, configuration(), &spectrum)?;
    end_line(&rt)?;
    print_item(&rt, 11)?;
    draw_fresh(&rt)?;
    end_line(&rt)?;
    print_item(&rt, 12)?;
    give_equal(&rt, 1)?;
    give_equal(&rt, 8)?;
    end_line(&rt)
}
