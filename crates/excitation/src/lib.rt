// The excitation: pulses and noise, mixed on a delay line.
#![tactic(auto)]

ghost use Rattle.std.specs.Prelude.{◌≡◌, length};
ghost use Rattle.number.specs.Lists.{over};
ghost use Rattle.noise.specs.Draw.{tries};
ghost use Rattle.excitation.specs.Excitation.{state, stretch_of};
ghost use Rattle.excitation.specs.Window.{Stretches};

mod get;
mod window;

use crate::get::get;
use crate::window::by_pieces;
use noise::Random;
use pulse::Pulse;

// What a stretch came to: how many samples were made, and the pulse train and the noise after the last of them. C takes it so.
#[repr(C)]
#[derive(Clone, Copy)]
pub struct Filled {
    pub made: usize,
    pub pulse: Pulse,
    pub random: Random,
}

// A stretch, sample by sample: for a line of no taps, and for one that the window has no room for. Answers how many samples were made.
fn one_by_one(
    pulse: &mut Pulse,
    random: &mut Random,
    line: &mut [f64],
    lpf: &[f64],
    out: &mut [f64],
) -> usize
    ensures { Stretches lpf.now (state pulse.old random.old line.old) (state pulse.new random.new line.new) result out.old out.new }
{
    for i in 0..out.len() {
        let Some(sample) = get(pulse, random, line, lpf) else {
            return i;
        };
        out[i] = sample;
    }
    out.len()
}

// Fills `out` with as many samples as can be had. nlpf is the length of the line.
pub fn stretch(
    pulse: Pulse,
    random: Random,
    line: &mut [f64],
    lpf: &[f64],
    out: &mut [f64],
) -> Filled
    ensures line_after { state result.pulse result.random line.new
        ≡ (stretch_of tries lpf.now (length out.old) (state pulse random line.old)).state }
    ensures made_value { result.made ≡ length (stretch_of tries lpf.now (length out.old) (state pulse random line.old)).made }
    ensures out_after { out.new
        ≡ over (stretch_of tries lpf.now (length out.old) (state pulse random line.old)).made result.made out.old }
{
    let mut pulse = pulse;
    let mut random = random;
    let taps = line.len();
    let made = if taps == 0 || taps > 64 {
        one_by_one(&mut pulse, &mut random, line, lpf, out)
    } else {
        by_pieces(&mut pulse, &mut random, line, lpf, out)
    };
    Filled {
        made,
        pulse,
        random,
    }
}
