// A frame in draws of awkward lengths, with refused calls and restarts in between.
ghost use Rattle.std.specs.Prelude.{◌≤◌};

use crate::calls;
use crate::counts::Counts;
use crate::others::Kind;
use crate::run::Run;
use refusing::Frame;
use std::io;
use voice::Voice;

// More draws than the longest frame takes, of 4,800 samples: seven make 348.
const MOST_DRAWS: usize = 128;

// After so many draws there is a restart. 5, the 7 lengths, the 4 refused calls and the 3 kinds of voices have no factors in common: they all meet.
const RESTART: u64 = 5;

// The length of the next draw: in turn one, a few, none, ..., and more than most frames have.
fn length_after(draws: u64) -> usize
    ensures { result ≤ 240 }
{
    match draws % 7 {
        0 => 1,
        1 => 7,
        2 => 0,
        3 => 64,
        4 => 3,
        5 => 240,
        _ => 33,
    }
}

// Makes a call that is refused while samples are left: four of them in turn.
fn refused(before: Run, frame: Frame, counts: &mut Counts) -> Voice {
    let voice = before.voice;
    match before.draws % 4 {
        0 => calls::give(voice, frame, counts),
        1 => calls::whole_without_room(voice, frame, counts),
        2 => calls::restore_damaged(voice, counts),
        _ => {
            calls::save_short(voice, counts);
            voice
        }
    }
}

// Draws once, by the next length.
fn draw_next(before: Run, voice: Voice, counts: &mut Counts) -> Run {
    let length = length_after(before.draws);
    let mut room = [0.0; 240];
    let out = &mut room[..length];
    let drawn = drawing::draw(voice, out, 0);
    counts.count(drawn.number);
    before.hear(drawn.voice, out, drawn.made)
}

// Restarts in another voice, where it is time for that.
fn restart(rt: &impl Print, before: Run, counts: &mut Counts) -> io::Result<Run> {
    if before.draws % RESTART != 0 {
        return Ok(before);
    }
    let voice = before.voice;
    let meter = voice.meter;
    print!(rt; "cut: restart at sample {meter} into ")?;
    let kind = Kind::after(before.restarts);
    let other = kind.voice();
    kind.print(rt, other.left)?;
    Ok(before.restarted(calls::restart(voice, other, counts)))
}

// A refused call, a draw, and a restart where it is time for one.
fn piece(rt: &impl Print, before: Run, frame: Frame, counts: &mut Counts) -> io::Result<Run> {
    let voice = refused(before, frame, counts);
    let drawn = draw_next(before, voice, counts);
    restart(rt, drawn, counts)
}

// Draws what is left of the frame.
fn draw_all(rt: &impl Print, given: Run, frame: Frame, counts: &mut Counts) -> io::Result<Run> {
    let mut run = given;
    for _ in 0..MOST_DRAWS {
        if run.voice.left == 0 {
            return Ok(run);
        }
        run = piece(rt, run, frame, counts)?;
    }
    Ok(run)
}

// Gives a frame, draws it to its end, and asks for one sample more.
pub fn cut_frame(
    rt: &impl Print,
    before: Run,
    frame: Frame,
    counts: &mut Counts,
) -> io::Result<Run> {
    let given = before.with_voice(calls::give(before.voice, frame, counts));
    let drawn = draw_all(rt, given, frame, counts)?;
    Ok(drawn.with_voice(calls::draw_one(drawn.voice, counts)))
}
