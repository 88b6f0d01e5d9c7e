// The samples of a part of a frame. A voice is large, so only two are built on the way: one with the excitation and the counts, and one with the rest.
// That the limits are kept stands in five contracts: a type for it would be taken off and put on around each change of the voice, and C hands in none.
ghost use Rattle.std.specs.Prelude.{◌≡◌, true, ◌+◌, ◌≤◌, ◌<◌, length, take};
ghost use Rattle.number.specs.Lists.{over};
ghost use Rattle.history.specs.Steps.{steps};
ghost use Rattle.history.specs.Through.{passage};
ghost use Rattle.noise.specs.Draw.{tries};
ghost use Rattle.excitation.specs.Excitation.{stretch_of};
ghost use Rattle.configuration.specs.Limits.{limits_kept};
ghost use Rattle.voice.specs.Voice.{most_meter};
ghost use Rattle.drawing.specs.Step.{taps_of, excitation_of, with_excitation, counted, step};
ghost use Rattle.drawing.specs.Finish.{pulse_at_end, entries_at_end, with_remains, ended};

use filter::{Course, nonzero, zero};
use mglsa::MelGeneralizedLogSpectrumApproximation;
use mlsa::MelLogSpectrumApproximation;
use pulse::Pulse;
use voice::Voice;

// How many samples were made, and the voice after the last of them.
#[derive(Clone, Copy)]
pub struct Sounded {
    pub made: usize,
    pub voice: Voice,
}

// What the filter and the frame's end leave besides the coefficients: the pulse train, and the taps of both filters.
#[derive(Clone, Copy)]
pub struct Remains {
    pub pulse: Pulse,
    pub zero: MelLogSpectrumApproximation,
    pub nonzero: MelGeneralizedLogSpectrumApproximation,
}

// The excitation of as many samples as can be had, which are counted.
fn excite(voice: Voice, samples: &mut [f64]) -> Sounded
    requires { (limits_kept voice.configuration ≡ true) × (length samples.old ≤ voice.left) × (voice.meter + voice.left ≤ most_meter) }
    ensures voice_value { result.voice ≡ counted result.made (with_excitation (stretch_of tries (taps_of voice) (length samples.old) (excitation_of voice)).state voice) }
    ensures made_value { result.made ≡ length (stretch_of tries (taps_of voice) (length samples.old) (excitation_of voice)).made }
    ensures samples_after { samples.new ≡ over (stretch_of tries (taps_of voice) (length samples.old) (excitation_of voice)).made result.made samples.old }
{
    let configuration = voice.configuration;
    let nlpf = configuration.nlpf;
    let mut line = voice.line;
    let lpf = voice.lpf;
    let pulse = voice.pulse;
    let random = voice.random;
    let filled = excitation::stretch(pulse, random, &mut line[..nlpf], &lpf[..nlpf], samples);
    let made = filled.made;
    let after = Voice {
        meter: voice.meter + made as u64,
        left: voice.left - made,
        pulse: filled.pulse,
        line,
        random: filled.random,
        ..voice
    };
    Sounded { made, voice: after }
}

// The frame's end, where no sample is left: the pulse train's, and the coefficients at their targets.
fn close(voice: Voice, c: &mut [f64]) -> Pulse
    requires { (limits_kept voice.configuration ≡ true) × (length c.old ≡ voice.configuration.nmcp) }
    ensures { (result ≡ pulse_at_end voice) × (c.new ≡ entries_at_end voice c.old) }
{
    let pulse = voice.pulse;
    if voice.left == 0 {
        let n = c.len();
        let targets = voice.targets;
        c.copy_from_slice(&targets[..n]);
        return pulse.end();
    }
    pulse
}

// The filter of the voice's stage over the samples, and the frame's end.
fn filter_stage(voice: Voice, c: &mut [f64], samples: &mut [f64]) -> Remains
    requires { (limits_kept voice.configuration ≡ true) × (c.old ≡ take voice.configuration.nmcp voice.coefficients) }
    ensures { passage samples.new (with_remains c.new result voice) ≡ ended voice samples.old }
{
    let configuration = voice.configuration;
    let alpha = configuration.alpha;
    let volume = configuration.volume;
    let n = c.len();
    let increments = voice.increments;
    let course = Course {
        increments: &increments[..n],
        alpha,
        volume,
    };
    let mut zero = voice.zero;
    let mut nonzero = voice.nonzero;
    if configuration.stage == 0 {
        zero = zero::stretch(zero, samples, c, course);
    } else {
        let stage = configuration.stage as usize;
        nonzero = nonzero::stretch(nonzero, stage, samples, c, course);
    }
    let pulse = close(voice, c);
    Remains {
        pulse,
        zero,
        nonzero,
    }
}

// The voice after its filter and the frame's end.
fn finish(voice: Voice, samples: &mut [f64]) -> Voice
    requires { limits_kept voice.configuration ≡ true }
    ensures { passage samples.new result ≡ ended voice samples.old }
{
    let configuration = voice.configuration;
    let nmcp = configuration.nmcp;
    let mut c = voice.coefficients;
    let remains = filter_stage(voice, &mut c[..nmcp], samples);
    Voice {
        pulse: remains.pulse,
        coefficients: c,
        zero: remains.zero,
        nonzero: remains.nonzero,
        ..voice
    }
}

// As many samples as the slice is long, or as can be had, of those left.
pub fn sound(voice: Voice, samples: &mut [f64]) -> Sounded
    requires { (limits_kept voice.configuration ≡ true) × (length samples.old ≤ voice.left) × (voice.meter + voice.left ≤ most_meter) × (0 < voice.left) }
    ensures voice_value { result.voice ≡ (steps (step tries) (length samples.old) voice).state }
    ensures made_value { result.made ≡ length (steps (step tries) (length samples.old) voice).made }
    ensures samples_after { samples.new ≡ over (steps (step tries) (length samples.old) voice).made result.made samples.old }
{
    let excited = excite(voice, samples);
    let made = excited.made;
    let fed = excited.voice;
    Sounded {
        made,
        voice: finish(fed, &mut samples[..made]),
    }
}
