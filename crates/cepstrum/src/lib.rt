// The mel-cepstrum and its coefficients: from one to the other, to another warping, to the impulse response, and its energy.
#![tactic(auto)]

pub mod cepstrum;
pub mod coefficients;
