// Preparing a frame's spectrum: its targets, and for the first frame the start coefficients, one function for each kind.
#![tactic(auto)]

pub mod mel;
pub mod pairs;
