// Writes eight samples of a pulse train of pitch 4 that starts from rest, with no filter: the bits of each, a line.
#![tactic(auto)]

use noise::Random;
use pulse::Pulse;
use std::io;

fn main(rt: HostRuntime) -> io::Result<()> {
    println!(rt; "excitation 8")?;
    let pulse = Pulse::new().start(Some(4.0), 8);
    let random = Random::new();
    let mut line: [f64; 0] = [];
    let lpf: [f64; 0] = [];
    let mut out = [0.0; 8];
    let filled = excitation::stretch(pulse, random, &mut line, &lpf, &mut out);
    let made = filled.made;
    words::print_floats(&rt, &out[0..made])
}
