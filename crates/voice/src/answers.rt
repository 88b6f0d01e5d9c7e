// What the calls answer, as document 01's table has it: done, or the refusal of a row.
ghost use Rattle.std.specs.Prelude.{◌≡◌};
ghost use Rattle.voice.specs.Answers.{number_of};
ghost use Rattle.voice.specs.declared.answers.Refusal.TheVariants.{ArgumentOutside};

use elementary::answer::Outside;

// Done.
pub const DONE: u64 = 0;

// Why a call is refused, each by the number of its row.
#[derive(Clone, Copy, PartialEq, Eq)]
pub enum Refusal {
    // Open: a limit is broken; the voice returned is idle.
    LimitBroken = 1,
    // All but open and restore: the voice is idle.
    VoiceIdle = 2,
    // Give: samples of the last frame are left.
    SamplesLeft = 3,
    // Give: the spectrum's length is not nmcp.
    SpectrumLength = 4,
    // Give: the tap count is not nlpf.
    TapCount = 5,
    // Give: lf0, a spectrum entry or a tap is not finite.
    NotFinite = 6,
    // Give: stage 1 or more, and a spectrum entry beyond 2^20 in size.
    EntryBeyond = 7,
    // Give: the meter and fperiod exceed 2^63 - 1.
    MeterFull = 8,
    // Give: preparing meets an argument outside ln, cos or power.
    ArgumentOutside = 9,
    // Draw: nothing is left to draw.
    NothingLeft = 10,
    // Draw: the noise is dry.
    NoiseDry = 11,
    // Save: the buffer is shorter than the records.
    RecordsLonger = 12,
    // Restore: the records are not acceptable.
    RecordsWrong = 13,
    // Whole frame: the sample buffer is shorter than fperiod.
    BufferShort = 14,
}

impl Refusal {
    // The number that the call answers.
    pub fn number(self) -> u64
        ensures { result ≡ number_of self }
    {
        self as u64
    }
}

impl From<Outside> for Refusal {
    ghost from_gives = { λ _ refusal. refusal ≡ ArgumentOutside };

    fn from(_outside: Outside) -> Self {
        Self::ArgumentOutside
    }
}
