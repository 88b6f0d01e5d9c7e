// What C and Rust reach of the voice, under C names. Each function is the call of its name.
#![tactic(auto)]

ghost use Rattle.refusing.specs.Refusal.{frame};
ghost use Rattle.voice.specs.Open.{Opens};
ghost use Rattle.giving.specs.Give.{Gives};
ghost use Rattle.drawing.specs.Draw.{Draws};
ghost use Rattle.whole.specs.Whole.{Renders};
ghost use Rattle.rest.specs.Rest.{Saves, Restores};

use configuration::Configuration;
use drawing::Drawn;
use refusing::Frame;
use rest::Saved;
use voice::{Answered, Voice};

#[unsafe(no_mangle)]
pub extern "C" fn kipawnore_open(configuration: Configuration) -> Answered
    ensures { Opens configuration result }
{
    voice::open(configuration)
}

#[unsafe(no_mangle)]
pub extern "C" fn kipawnore_give(voice: Voice, lf0: f64, spectrum: &[f64], lpf: &[f64]) -> Answered
    ensures { Gives (frame lf0 spectrum.now lpf.now) voice result }
{
    let frame = Frame { lf0, spectrum, lpf };
    giving::give(voice, frame)
}

#[unsafe(no_mangle)]
pub extern "C" fn kipawnore_draw(voice: Voice, out: &mut [f64], start: usize) -> Drawn
    ensures { Draws voice out.old start result out.new }
{
    drawing::draw(voice, out, start)
}

#[unsafe(no_mangle)]
pub extern "C" fn kipawnore_whole_frame(
    voice: Voice,
    lf0: f64,
    spectrum: &[f64],
    lpf: &[f64],
    out: &mut [f64],
    start: usize,
) -> Drawn
    ensures { Renders (frame lf0 spectrum.now lpf.now) voice out.old start result out.new }
{
    let frame = Frame { lf0, spectrum, lpf };
    whole::whole_frame(voice, frame, out, start)
}

#[unsafe(no_mangle)]
pub extern "C" fn kipawnore_save(voice: Voice, out: &mut [u8]) -> Saved
    ensures { Saves voice out.old result out.new }
{
    rest::save(voice, out)
}

#[unsafe(no_mangle)]
pub extern "C" fn kipawnore_restore(voice: Voice, bytes: &[u8]) -> Answered
    ensures { Restores bytes.now voice result }
{
    rest::restore(voice, bytes)
}
