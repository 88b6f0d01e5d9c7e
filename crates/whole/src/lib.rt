// A whole frame: given, and drawn to its end.
#![tactic(auto)]

ghost use Rattle.std.specs.Prelude.{◌≡◌, IfOk};
ghost use Rattle.voice.specs.Answers.{number_for};
ghost use Rattle.refusing.specs.Given.{frame_of};
ghost use Rattle.giving.specs.Give as give;
ghost use Rattle.giving.specs.Give.{◌otherwise◌};
ghost use Rattle.whole.specs.Whole.{short_of, Renders};

use drawing::{Drawn, draw};
use giving::accepted;
use refusing::Frame;
use voice::Voice;
use voice::answers::Refusal;

// What comes before the refusals of give: 2, then 14.
fn refusal(voice: &Voice, len: usize, start: usize) -> Result<(), Refusal>
    ensures { number_for result ≡ short_of voice.now len start }
{
    if !voice.is_usable() {
        return Err(Refusal::VoiceIdle);
    }
    if len.saturating_sub(start) < voice.configuration.fperiod {
        return Err(Refusal::BufferShort);
    }
    Ok(())
}

// The voice after a frame that there is room for and that give accepts.
fn begun(voice: &Voice, frame: Frame, len: usize, start: usize) -> Result<Voice, Refusal>
    ensures number { number_for result ≡ short_of voice.now len start otherwise give.refusal (frame_of frame.entry) voice.now }
    ensures after { IfOk result (λ after. after ≡ give.given (frame_of frame.entry) voice.now) }
{
    refusal(voice, len, start)?;
    accepted(voice, frame)
}

// WHOLE FRAME: into the buffer from `start` on.
pub fn whole_frame(voice: Voice, frame: Frame, out: &mut [f64], start: usize) -> Drawn
    ensures { Renders (frame_of frame.entry) voice out.old start result out.new }
{
    match begun(&voice, frame, out.len(), start) {
        Ok(given) => draw(given, out, start),
        Err(refusal) => Drawn {
            number: refusal.number(),
            made: 0,
            voice,
        },
    }
}
