// The pulse train: its pitch, and a counter that a pulse reduces by the pitch.
#![tactic(auto)]

ghost use Rattle.std.specs.Prelude.{◌≡◌, ◌≤◌, ◌^◌};
ghost use Rattle.pulse.specs.Train.{fresh_pulse, start_of, pulse_of, end_of};

// The pitch in samples, 0 where unvoiced; what has been counted since the last pulse; what the pitch gains with each sample; the
// pitch that the frame ends at. No Option for the pitch here: C knows the four floats, and document 01 names them.
#[repr(C)]
#[derive(Clone, Copy)]
pub struct Pulse {
    pub pitch: f64,
    pub counter: f64,
    pub increment: f64,
    pub end: f64,
}

// A sample of the train, a pulse or the 0 between two, and the train after it.
#[derive(Clone, Copy)]
pub struct Pulsed {
    pub sample: f64,
    pub pulse: Pulse,
}

impl Pulse {
    // At rest.
    pub fn new() -> Self
        ensures { result ≡ fresh_pulse }
    {
        Self {
            pitch: 0.0,
            counter: 0.0,
            increment: 0.0,
            end: 0.0,
        }
    }

    // A frame of fperiod samples begins, whose pitch is a period in samples, or none where it is unvoiced: from one voiced pitch to another it goes by steps, else at once.
    pub fn start(self, pitch: Option<f64>, fperiod: u64) -> Self
        requires { fperiod ≤ 2 ^ 53 }
        ensures { result ≡ start_of self pitch fperiod }
    {
        let end = pitch.unwrap_or(0.0);
        if self.pitch != 0.0 && end != 0.0 {
            return Self {
                pitch: self.pitch,
                counter: self.counter,
                increment: (end - self.pitch) / fperiod as f64,
                end,
            };
        }
        Self {
            pitch: end,
            counter: end,
            increment: 0.0,
            end,
        }
    }

    // The pulse of a voiced sample: the counter, one more, is reduced by the pitch once it has come to it.
    pub fn next(self) -> Pulsed
        ensures { result ≡ pulse_of self }
    {
        let pitch = self.pitch;
        let counter = self.counter + 1.0;
        let next_pitch = pitch + self.increment;
        let mut pulse = self;
        pulse.pitch = next_pitch;
        pulse.counter = counter;
        if counter >= pitch {
            pulse.counter = counter - pitch;
            return Pulsed {
                sample: root::sqrt(pitch),
                pulse,
            };
        }
        Pulsed { sample: 0.0, pulse }
    }

    // The frame ends.
    pub fn end(self) -> Self
        ensures { result ≡ end_of self }
    {
        let mut pulse = self;
        pulse.pitch = self.end;
        pulse
    }
}
