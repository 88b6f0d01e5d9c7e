// What give refuses before it prepares a frame.
#![tactic(auto)]

pub mod entries;

ghost use Rattle.std.specs.Prelude.{◌≡◌};
ghost use Rattle.voice.specs.Answers.{number_for};
ghost use Rattle.refusing.specs.Refusal.{earlier};
ghost use Rattle.refusing.specs.Given.{frame_of};

use entries::{all_finite, all_within};
use number::range::is_finite;
use voice::answers::Refusal;
use voice::{MOST_METER, Voice};

// Log F0, a spectrum and filter taps.
#[derive(Clone, Copy)]
pub struct Frame<'a> {
    pub lf0: f64,
    pub spectrum: &'a [f64],
    pub lpf: &'a [f64],
}

// The first of the rows 2 to 8 that applies.
pub fn refusal(voice: &Voice, frame: Frame) -> Result<(), Refusal>
    ensures { number_for result ≡ earlier (frame_of frame.entry) voice.now }
{
    let configuration = voice.configuration;
    if !voice.is_usable() {
        return Err(Refusal::VoiceIdle);
    }
    if voice.left != 0 {
        return Err(Refusal::SamplesLeft);
    }
    if frame.spectrum.len() != configuration.nmcp {
        return Err(Refusal::SpectrumLength);
    }
    if frame.lpf.len() != configuration.nlpf {
        return Err(Refusal::TapCount);
    }
    if !(is_finite(frame.lf0) & all_finite(frame.spectrum) & all_finite(frame.lpf)) {
        return Err(Refusal::NotFinite);
    }
    if (configuration.stage >= 1) & !all_within(frame.spectrum) {
        return Err(Refusal::EntryBeyond);
    }
    if voice.meter > MOST_METER - configuration.fperiod as u64 {
        return Err(Refusal::MeterFull);
    }
    Ok(())
}
