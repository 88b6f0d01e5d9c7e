// A stretch of excitation samples made into finished samples, in place: gain, filter, coefficients on by their increments, volume.
#![tactic(auto)]

mod gains;
pub mod laid;
pub mod nonzero;
pub mod zero;

// What a stretch goes by beside its coefficients: their increments, the warping and the volume.
#[derive(Clone, Copy)]
pub struct Course<'a> {
    pub increments: &'a [f64],
    pub alpha: f64,
    pub volume: f64,
}
