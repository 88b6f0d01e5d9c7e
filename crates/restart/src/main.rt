// Renders a job twice: uncut, a whole frame at a time; and cut, in draws of awkward lengths, with refused calls and restarts in between. It
// writes what each came to, where the restarts were, how often each number was a refusal's, and whether both are the same. A job is a
// list of words, one a line, floats by their bits: the twelve slots of the configuration; the count of frames; of each frame lf0, the nmcp
// entries of the spectrum and the nlpf taps. A job that is past a limit, or not as long as it says, ends the program with a line that says so.
// Arrays are of the largest size that a case may have, a part of them lent: no heap.
#![tactic(auto)]

ghost use Rattle.std.specs.Prelude.{◌≤◌, IfOk, length};

mod calls;
mod counts;
mod cut;
mod job;
mod others;
mod run;

use counts::Counts;
use job::{FRAMES_AT, Fault};
use refusing::Frame;
use run::{Outcome, Run};
use std::io;
use voice::Voice;
use voice::answers::DONE;

// How the frames are rendered. An enum and no closure, since each way has a name beside its step.
#[derive(Clone, Copy)]
enum Way {
    Uncut,
    Cut,
}

impl Way {
    fn name(self) -> &'static str {
        match self {
            Way::Uncut => "uncut",
            Way::Cut => "cut",
        }
    }

    // Renders a frame.
    fn render_frame(
        self,
        rt: &impl Print,
        before: Run,
        frame: Frame,
        counts: &mut Counts,
    ) -> io::Result<Run> {
        match self {
            Way::Uncut => Ok(calls::whole_frame(before, frame, counts)),
            Way::Cut => cut::cut_frame(rt, before, frame, counts),
        }
    }
}

// Renders the frames, one after the other, with room for the numbers of one.
fn render_frames(
    rt: &impl Print,
    way: Way,
    frames: &[u8],
    opened: Run,
    spectrum: &mut [f64],
    lpf: &mut [f64],
    counts: &mut Counts,
) -> io::Result<Run>
    requires { (length spectrum.old ≤ 64) × (length lpf.old ≤ 64) }
{
    let mut run = opened;
    for words in frames.chunks_exact(job::size(spectrum.len(), lpf.len())) {
        let lf0 = job::read_frame(words, spectrum, lpf);
        let frame = Frame { lf0, spectrum, lpf };
        run = way.render_frame(rt, run, frame, counts)?;
    }
    Ok(run)
}

// Renders the frames by a voice that was opened for them, and writes what it came to.
fn render(rt: &impl Print, way: Way, frames: &[u8], opened: Voice) -> io::Result<Outcome>
    requires { (opened.configuration.nmcp ≤ 64) × (opened.configuration.nlpf ≤ 64) }
{
    let mut spectrum = [0.0; 64];
    let mut lpf = [0.0; 64];
    let mut counts = Counts::new();
    let run = render_frames(
        rt,
        way,
        frames,
        Run::new(opened),
        &mut spectrum[..opened.configuration.nmcp],
        &mut lpf[..opened.configuration.nlpf],
        &mut counts,
    )?;
    let name = way.name();
    let outcome = run.outcome();
    println!(rt; "{name}: {outcome}")?;
    counts.print(rt, name)?;
    Ok(outcome)
}

// Renders the frames both ways, and says whether that is the same.
fn compare(rt: &impl Print, frames: &[u8], opened: Voice) -> io::Result<()>
    requires { (opened.configuration.nmcp ≤ 64) × (opened.configuration.nlpf ≤ 64) }
{
    let uncut = render(rt, Way::Uncut, frames, opened)?;
    let cut = render(rt, Way::Cut, frames, opened)?;
    if uncut == cut {
        println!(rt; "both are the same")
    } else {
        println!(rt; "they differ")
    }
}

// The voice that a job opens, where it is as long as it says. The tests of nmcp and nlpf are for the arrays: open has accepted them.
fn opened(text: &[u8]) -> Result<Voice, Fault>
    ensures { IfOk result (λ v. (221 ≤ length text.now) × (v.configuration.nmcp ≤ 64) × (v.configuration.nlpf ≤ 64)) }
{
    if text.len() < FRAMES_AT {
        return Err(Fault::CutOff);
    }
    let opened = voice::open(job::configuration(text));
    let configuration = opened.voice.configuration;
    if opened.number != DONE || configuration.nmcp > 64 || configuration.nlpf > 64 {
        return Err(Fault::PastLimit);
    }
    let size = job::size(configuration.nmcp, configuration.nlpf);
    if !job::is_whole(text.len() - FRAMES_AT, job::count(text), size) {
        return Err(Fault::WrongLength);
    }
    Ok(opened.voice)
}

// Renders a job.
fn demonstrate(rt: &impl Print, text: &[u8]) -> io::Result<()> {
    match opened(text) {
        Ok(voice) => compare(rt, &text[FRAMES_AT..], voice),
        Err(fault) => println!(rt; "{fault}"),
    }
}

fn main(rt: HostRuntime) -> io::Result<()> {
    let mut text = [0; 65536];
    let count = words::read(&mut rt.stdin(), &mut text)?;
    demonstrate(&rt, &text[..count])
}
