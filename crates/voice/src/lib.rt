// The voice: its configuration and all that a sample goes on from.
#![tactic(auto)]

pub mod answers;

ghost use Rattle.std.specs.Prelude.{◌≡◌};
ghost use Rattle.voice.specs.Voice.{at_rest, idle_voice, acceptable};
ghost use Rattle.voice.specs.Open.{Opens};

use answers::{DONE, Refusal};
use configuration::Configuration;
use mglsa::MelGeneralizedLogSpectrumApproximation;
use mlsa::MelLogSpectrumApproximation;
use noise::Random;
use pulse::Pulse;

// The most that the meter and the samples left may come to.
pub const MOST_METER: u64 = 9223372036854775807;

// The values of a filling of the noise.
const FILLING: usize = 64;

// In the order of the rest records. Of the arrays the first nmcp or nlpf entries are in use, and one of the two filters: `zero` at stage 0,
// else `nonzero`. What is not in use stays as it is. C has this struct too, so the counts
// stand beside fixed arrays.
#[repr(C)]
#[derive(Clone, Copy)]
pub struct Voice {
    pub configuration: Configuration,
    pub meter: u64,
    pub left: usize,
    pub first: bool,
    pub pulse: Pulse,
    pub line: [f64; 64],
    pub lpf: [f64; 64],
    pub random: Random,
    pub coefficients: [f64; 64],
    pub increments: [f64; 64],
    pub targets: [f64; 64],
    pub zero: MelLogSpectrumApproximation,
    pub nonzero: MelGeneralizedLogSpectrumApproximation,
}

// What open and give answer: a number of the table, and the voice after the call. C reads the number, so it is no Result.
#[repr(C)]
#[derive(Clone, Copy)]
pub struct Answered {
    pub number: u64,
    pub voice: Voice,
}

// Whether restore's rules hold of these values of a voice: else it is idle. Restore asks it of records, where there is no voice yet.
pub fn usable(
    configuration: Configuration,
    meter: u64,
    left: usize,
    first: bool,
    used: usize,
) -> bool
    ensures { result ≡ acceptable configuration meter left first used }
{
    if !configuration::kept(configuration) {
        return false;
    }
    if left > configuration.fperiod {
        return false;
    }
    if meter > MOST_METER - left as u64 {
        return false;
    }
    let frames = (meter + left as u64) % configuration.fperiod as u64 == 0;
    let begun = !first | ((meter == 0) & (left == 0));
    (used <= FILLING) & frames & begun
}

impl Voice {
    // Whether restore's rules hold of its values: else it is idle.
    pub fn is_usable(&self) -> bool
        ensures { result ≡ acceptable self.now.configuration self.now.meter self.now.left self.now.first self.now.random.used }
    {
        usable(
            self.configuration,
            self.meter,
            self.left,
            self.first,
            self.random.used,
        )
    }
}

// A voice whose slots but these are zero.
fn at_rest(configuration: Configuration, first: bool, random: Random) -> Voice
    ensures { result ≡ at_rest configuration first random }
{
    Voice {
        configuration,
        meter: 0,
        left: 0,
        first,
        pulse: Pulse::new(),
        line: [0.0; 64],
        lpf: [0.0; 64],
        random,
        coefficients: [0.0; 64],
        increments: [0.0; 64],
        targets: [0.0; 64],
        zero: MelLogSpectrumApproximation::new(),
        nonzero: MelGeneralizedLogSpectrumApproximation::new(),
    }
}

// The idle voice that a refused open returns: every slot is zero.
fn idle() -> Voice
    ensures { result ≡ idle_voice }
{
    let random = Random {
        next: 0,
        used: 0,
        queue: [0.0; 64],
    };
    at_rest(Configuration::default(), false, random)
}

// OPEN: a fresh voice where every limit holds.
pub fn open(configuration: Configuration) -> Answered
    ensures { Opens configuration result }
{
    if configuration::kept(configuration) {
        return Answered {
            number: DONE,
            voice: at_rest(configuration, true, Random::new()),
        };
    }
    Answered {
        number: Refusal::LimitBroken.number(),
        voice: idle(),
    }
}
