// Drawing samples: the excitation of as many as can be had, and the filter over them, both in place.
#![tactic(auto)]

pub mod sound;

ghost use Rattle.std.specs.Prelude.{◌≡◌};
ghost use Rattle.history.specs.Machine.{draw_refusal};
ghost use Rattle.noise.specs.Draw.{tries};
ghost use Rattle.voice.specs.Answers as answers;
ghost use Rattle.drawing.specs.Draw.{voice_of, number_for, Draws};

use sound::sound;
use voice::Voice;
use voice::answers::{DONE, Refusal};

// What draw and whole frame answer: a number of the table, the count of samples made, and the voice after them. C reads the number.
#[repr(C)]
#[derive(Clone, Copy)]
pub struct Drawn {
    pub number: u64,
    pub made: usize,
    pub voice: Voice,
}

// Why draw is refused: 2, then 10.
fn refusal(voice: &Voice) -> Result<(), Refusal>
    ensures { answers.number_for result ≡ draw_refusal (voice_of tries) voice.now }
{
    if !voice.is_usable() {
        return Err(Refusal::VoiceIdle);
    }
    if voice.left == 0 {
        return Err(Refusal::NothingLeft);
    }
    Ok(())
}

// An answer without samples.
fn nothing(number: u64, voice: Voice) -> Drawn
    ensures { result ≡ record { number = number; made = 0; voice = voice } }
{
    Drawn {
        number,
        made: 0,
        voice,
    }
}

// The number for so many samples of those asked for: where some are missing, the noise is dry.
fn number_of(made: usize, count: usize) -> u64
    ensures { result ≡ number_for made count }
{
    if made < count {
        Refusal::NoiseDry.number()
    } else {
        DONE
    }
}

// DRAW: into the buffer from `start` on. A start past its end leaves no room.
pub fn draw(voice: Voice, out: &mut [f64], start: usize) -> Drawn
    ensures { Draws voice out.old start result out.new }
{
    if let Err(refusal) = refusal(&voice) {
        return nothing(refusal.number(), voice);
    }
    let room = out.len().saturating_sub(start);
    if room == 0 {
        return nothing(DONE, voice);
    }
    let count = room.min(voice.left);
    let sounded = sound(voice, &mut out[start..start + count]);
    Drawn {
        number: number_of(sounded.made, count),
        made: sounded.made,
        voice: sounded.voice,
    }
}
