// The voices.
ghost use Rattle.std.specs.Prelude.{◌≡◌, ◌≤◌};

use configuration::Configuration;
use refusing::Frame;
use voice::Voice;

// The log F0 of the first frame; the second is unvoiced.
const LF0: f64 = 5.0;

const NODATA: f64 = -10000000000.0;

// The usual configuration with these counts. Not shared: each program has numbers of its own.
pub fn configuration(nmcp: usize, nlpf: usize, stage: u64, fperiod: usize) -> Configuration
    ensures { (result.nmcp ≡ nmcp) × (result.nlpf ≡ nlpf) }
{
    Configuration {
        nmcp,
        nlpf,
        stage,
        log: false,
        rate: 16000,
        alpha: 0.42,
        beta: 0.0,
        volume: 1.0,
        fperiod,
        nodata: NODATA,
        low: 3.0,
        high: 9.9,
    }
}

// Fills with numbers that go by equal steps.
fn fill(values: &mut [f64], first: f64, step: f64) {
    let mut next = first;
    for value in values.iter_mut() {
        *value = next;
        next += step;
    }
}

// Gives the voice two frames of that spectrum and those taps, and draws the first and three samples of the second.
fn sounded(opened: Voice, spectrum: &[f64], lpf: &[f64]) -> Voice {
    let frame = Frame {
        lf0: LF0,
        spectrum,
        lpf,
    };
    let mut out = [0.0; 80];
    let rendered = whole::whole_frame(opened, frame, &mut out, 0);
    let unvoiced = Frame {
        lf0: NODATA,
        ..frame
    };
    let given = giving::give(rendered.voice, unvoiced);
    let mut part = [0.0; 3];
    drawing::draw(given.voice, &mut part, 0).voice
}

// A voice in the middle of its second frame. The spectrum falls at stage 0, and is of rising pairs else.
pub fn voice(configuration: Configuration) -> Voice
    requires { (configuration.nmcp ≤ 64) × (configuration.nlpf ≤ 64) }
{
    let opened = voice::open(configuration);
    let mut spectrum = [0.0; 64];
    let mut lpf = [0.0; 64];
    let step = if configuration.stage == 0 { -0.02 } else { 0.5 };
    fill(&mut spectrum, 0.5, step);
    fill(&mut lpf, 0.25, -0.01);
    sounded(
        opened.voice,
        &spectrum[..configuration.nmcp],
        &lpf[..configuration.nlpf],
    )
}
