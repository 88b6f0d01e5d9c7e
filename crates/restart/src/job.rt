// The job's words. Every line is of 17 bytes.
ghost use Rattle.std.specs.Prelude.{◌≡◌, ◌+◌, ◌*◌, ◌≤◌, length};

use configuration::Configuration;
use std::fmt;

// Why a job is not rendered.
#[derive(Clone, Copy)]
pub enum Fault {
    CutOff,
    PastLimit,
    WrongLength,
}

impl fmt::Display for Fault {
    fn fmt<W: fmt::Write>(&self, f: &mut fmt::Formatter<W>) -> fmt::Result {
        match self {
            Fault::CutOff => write!(f, "the job is cut off"),
            Fault::PastLimit => write!(f, "the job is past a limit"),
            Fault::WrongLength => write!(f, "the job is not as long as it says"),
        }
    }
}

// Where the frames begin: after the configuration and the count.
pub const FRAMES_AT: usize = 221;

// The configuration at the front. Much as `configuration_at` of voices: one reader would put the crate configuration below `words`, and so
// below every program.
pub fn configuration(text: &[u8]) -> Configuration
    requires { 17 * 13 ≤ length text.now }
{
    Configuration {
        nmcp: words::word(text, 0) as usize,
        nlpf: words::word(text, 17) as usize,
        stage: words::word(text, 17 * 2),
        log: words::word(text, 17 * 3) != 0,
        rate: words::word(text, 17 * 4),
        alpha: words::float(text, 17 * 5),
        beta: words::float(text, 17 * 6),
        volume: words::float(text, 17 * 7),
        fperiod: words::word(text, 17 * 8) as usize,
        nodata: words::float(text, 17 * 9),
        low: words::float(text, 17 * 10),
        high: words::float(text, 17 * 11),
    }
}

// The count of frames.
pub fn count(text: &[u8]) -> usize
    requires { 17 * 13 ≤ length text.now }
{
    words::word(text, 17 * 12) as usize
}

// How many bytes a frame takes.
pub fn size(nmcp: usize, nlpf: usize) -> usize
    requires { (nmcp ≤ 64) × (nlpf ≤ 64) }
    ensures { result ≡ 17 * (1 + nmcp + nlpf) }
{
    17 * (1 + nmcp + nlpf)
}

// Whether so many bytes are that count of frames of that size.
pub fn is_whole(bytes: usize, count: usize, size: usize) -> bool
    requires { 17 ≤ size }
{
    (bytes / size == count) & (bytes % size == 0)
}

// Reads the frame, and answers its log F0.
pub fn read_frame(frame: &[u8], spectrum: &mut [f64], lpf: &mut [f64]) -> f64
    requires lpf_in_bounds { 17 * (1 + length spectrum.old + length lpf.old) ≤ length frame.now }
    requires spectrum_len_bound { (length spectrum.old ≤ 64) × (length lpf.old ≤ 64) }
{
    let lpf_at = 17 * (1 + spectrum.len());
    words::floats(frame, 17, spectrum);
    words::floats(frame, lpf_at, lpf);
    words::float(frame, 0)
}
