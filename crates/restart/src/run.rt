// A rendering, as far as it has come.
use number::bits::bits_of;
use std::fmt;
use voice::Voice;

// The voice; how many samples it made, and a checksum of their bits; how many draws (or whole frames) and restarts there were.
#[derive(Clone, Copy)]
pub struct Run {
    pub voice: Voice,
    pub samples: u64,
    pub sum: u64,
    pub draws: u64,
    pub restarts: u64,
}

// What a rendering came to: two are the same where these are.
#[derive(Clone, Copy, PartialEq, Eq)]
pub struct Outcome {
    meter: u64,
    samples: u64,
    sum: u64,
}

impl fmt::Display for Outcome {
    fn fmt<W: fmt::Write>(&self, f: &mut fmt::Formatter<W>) -> fmt::Result {
        let meter = self.meter;
        let samples = self.samples;
        let sum = self.sum;
        write!(f, "meter {meter}, {samples} samples, checksum {sum:016x}")
    }
}

// What a checksum is multiplied by before the next bits are added: odd, so that none are lost.
const FACTOR: u64 = 6364136223846793005;

// The checksum after so many of the samples.
fn summed(before: u64, samples: &[f64], made: usize) -> u64 {
    let mut sum = before;
    for x in samples.iter().take(made) {
        sum = sum.wrapping_mul(FACTOR).wrapping_add(bits_of(*x));
    }
    sum
}

impl Run {
    // Before the first frame.
    pub fn new(voice: Voice) -> Self {
        Self {
            voice,
            samples: 0,
            sum: 0,
            draws: 0,
            restarts: 0,
        }
    }

    // After a call that made so many of the samples and led to that voice.
    pub fn hear(self, voice: Voice, samples: &[f64], made: usize) -> Self {
        Self {
            voice,
            samples: self.samples.wrapping_add(made as u64),
            sum: summed(self.sum, samples, made),
            draws: self.draws.wrapping_add(1),
            ..self
        }
    }

    // After a restart.
    pub fn restarted(self, voice: Voice) -> Self {
        Self {
            voice,
            restarts: self.restarts.wrapping_add(1),
            ..self
        }
    }

    // With another voice, as it is after a call that makes no sample.
    pub fn with_voice(self, voice: Voice) -> Self {
        Self { voice, ..self }
    }

    pub fn outcome(&self) -> Outcome {
        Outcome {
            meter: self.voice.meter,
            samples: self.samples,
            sum: self.sum,
        }
    }
}
