// Giving a frame: its refusals, and the voice that an accepted one leads to.
#![tactic(auto)]

pub mod begin;

ghost use Rattle.std.specs.Prelude.{◌≡◌, ◌≤◌};
ghost use Rattle.refusing.specs.Given.{frame_of};
ghost use Rattle.giving.specs.Pitch.{pitch_of};
ghost use Rattle.giving.specs.Give.{Accepts, Gives};

use begin::begin;
use configuration::Configuration;
use elementary::answer::Outside;
use number::range::clamp;
use refusing::{Frame, refusal};
use voice::answers::{DONE, Refusal};
use voice::{Answered, Voice};

// The period of a frame in samples, none where its log F0 is the no-data number.
fn pitch(configuration: Configuration, lf0: f64) -> Option<f64>
    requires { configuration.rate ≤ 192000 }
    ensures { result ≡ pitch_of configuration lf0 }
{
    if lf0 == configuration.nodata {
        return None;
    }
    let clamped = clamp(lf0, configuration.low, configuration.high);
    Some(configuration.rate as f64 / exponential::exp(clamped))
}

// The voice after a frame, where no row of the table refuses it.
pub fn accepted(voice: &Voice, frame: Frame) -> Result<Voice, Refusal>
    ensures { Accepts (frame_of frame.entry) voice.now result }
{
    refusal(voice, frame)?;
    let configuration = voice.configuration;
    let nmcp = configuration.nmcp;
    let mut coefficients = voice.coefficients;
    let mut targets = voice.targets;
    let mut increments = voice.increments;
    // No `?`, and the refusal beforehand: an edit changes what is returned here.
    let outside = Refusal::from(Outside);
    let Ok(()) = begin(
        configuration,
        voice.first,
        frame.spectrum,
        &mut coefficients[..nmcp],
        &mut targets[..nmcp],
        &mut increments[..nmcp],
    ) else {
        return Err(outside);
    };
    let mut lpf = voice.lpf;
    lpf[..configuration.nlpf].copy_from_slice(frame.lpf);
    let pitch = pitch(configuration, frame.lf0);
    Ok(Voice {
        left: configuration.fperiod,
        first: false,
        pulse: voice.pulse.start(pitch, configuration.fperiod as u64),
        lpf,
        coefficients,
        increments,
        targets,
        ..*voice
    })
}

// GIVE.
pub fn give(voice: Voice, frame: Frame) -> Answered
    ensures { Gives (frame_of frame.entry) voice result }
{
    match accepted(&voice, frame) {
        Ok(after) => Answered {
            number: DONE,
            voice: after,
        },
        Err(refusal) => Answered {
            number: refusal.number(),
            voice,
        },
    }
}
