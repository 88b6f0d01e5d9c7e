// What a voice is opened with, and document 01's limits.
#![tactic(auto)]

ghost use Rattle.std.specs.Prelude.{◌≡◌};
ghost use Rattle.configuration.specs.Limits.{numbers_kept, floats_kept, limits_kept};

use number::range::{is_finite, strictly_within, within};

// The entries of a spectrum.
const LEAST_NMCP: usize = 2;

const MOST_NMCP: usize = 64;

// The filter taps of a frame.
const MOST_NLPF: usize = 64;

// 0 for mel-cepstra, else line spectral pairs with gamma = -1/stage.
const MOST_STAGE: u64 = 8;

// Samples a second.
const LEAST_RATE: u64 = 1;

const MOST_RATE: u64 = 192000;

// Samples a frame.
const LEAST_FPERIOD: usize = 1;

const MOST_FPERIOD: usize = 4800;

// Where log-F0's low and high may lie, on both sides of 0.
const FURTHEST: f64 = 20.0;

// In the order of the rest records' first twelve slots; `log` is the log gain. C takes it by this layout.
#[repr(C)]
#[derive(Clone, Copy, Default)]
pub struct Configuration {
    pub nmcp: usize,
    pub nlpf: usize,
    pub stage: u64,
    pub log: bool,
    pub rate: u64,
    pub alpha: f64,
    pub beta: f64,
    pub volume: f64,
    pub fperiod: usize,
    pub nodata: f64,
    pub low: f64,
    pub high: f64,
}

// The limits of the whole numbers.
fn numbers_kept(c: Configuration) -> bool
    ensures { result ≡ numbers_kept c }
{
    (LEAST_NMCP <= c.nmcp)
        & (c.nmcp <= MOST_NMCP)
        & (c.nlpf <= MOST_NLPF)
        & (c.stage <= MOST_STAGE)
        & (LEAST_RATE <= c.rate)
        & (c.rate <= MOST_RATE)
        & (LEAST_FPERIOD <= c.fperiod)
        & (c.fperiod <= MOST_FPERIOD)
}

// The limits of the floats.
fn floats_kept(c: Configuration) -> bool
    ensures { result ≡ floats_kept c }
{
    strictly_within(c.alpha, -1.0, 1.0)
        & within(c.beta, 0.0, 1.0)
        & is_finite(c.volume)
        & within(c.low, -FURTHEST, FURTHEST)
        & within(c.high, -FURTHEST, FURTHEST)
        & (c.low <= c.high)
        & is_finite(c.nodata)
}

// Whether every limit holds.
pub fn kept(c: Configuration) -> bool
    ensures { result ≡ limits_kept c }
{
    numbers_kept(c) & floats_kept(c)
}
