// The voices that a restart goes into, each with something of its own that must not remain.
use configuration::Configuration;
use refusing::Frame;
use std::io;
use voice::Voice;

#[derive(Clone, Copy)]
pub enum Kind {
    // Of another configuration.
    Fresh,
    // What a refused open returns.
    Idle,
    // In the middle of a frame, with all of its arrays in use.
    Busy,
}

// A configuration of that stage; the other slots are unlike those of a usual job, and of no other program.
fn configuration(nmcp: usize, nlpf: usize, stage: u64) -> Configuration {
    Configuration {
        nmcp,
        nlpf,
        stage,
        log: true,
        rate: 48000,
        alpha: 0.55,
        beta: 0.25,
        volume: 0.5,
        fperiod: 50,
        nodata: 0.0,
        low: 4.0,
        high: 8.0,
    }
}

fn busy() -> Voice {
    let opened = voice::open(configuration(64, 64, 0));
    let frame = Frame {
        lf0: 5.0,
        spectrum: &[0.01; 64],
        lpf: &[0.02; 64],
    };
    let given = giving::give(opened.voice, frame);
    let mut out = [0.0; 17];
    drawing::draw(given.voice, &mut out, 0).voice
}

impl Kind {
    // The kind for the next restart: in turn.
    pub fn after(restarts: u64) -> Self {
        match restarts % 3 {
            0 => Kind::Fresh,
            1 => Kind::Idle,
            _ => Kind::Busy,
        }
    }

    pub fn voice(self) -> Voice {
        match self {
            Kind::Fresh => voice::open(configuration(5, 2, 3)).voice,
            Kind::Idle => voice::open(configuration(0, 0, 0)).voice,
            Kind::Busy => busy(),
        }
    }

    // Writes what kind it is, with so many samples left.
    pub fn print(self, rt: &impl Print, left: usize) -> io::Result<()> {
        match self {
            Kind::Fresh => println!(rt; "a fresh voice of another configuration"),
            Kind::Idle => println!(rt; "the idle voice"),
            Kind::Busy => println!(rt; "a busy voice with {left} samples left"),
        }
    }
}
