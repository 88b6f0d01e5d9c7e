// Numbers: a float's bits, tests of floats, sums and products that wrap, and 64-bit numbers as bytes. Nothing public here has a `requires`.
#![tactic(auto)]

pub mod bits;
pub mod range;
pub mod word;
pub mod wrapping;
