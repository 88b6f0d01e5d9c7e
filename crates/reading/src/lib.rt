// Which values of slots are a voice's, and the voice that they make.
#![tactic(auto)]

pub mod check;
pub mod read;
