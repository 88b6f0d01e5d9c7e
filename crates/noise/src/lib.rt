// The noise: pairs of normally distributed values, made from draws of a linear congruence by the polar method.
#![tactic(auto)]

ghost use Rattle.std.specs.Prelude.{◌≡◌, None};
ghost use Rattle.noise.specs.Draw.{tries};
ghost use Rattle.noise.specs.Noise.{fresh_random, filling_of, filled_of, noise_of, taken_of};

mod draw;
mod gather;
mod pair;

use crate::gather::{estimate, find_pairs, multiply, weigh};

// How many values a filling makes.
const VALUES: usize = 64;

// The state of the noise: `next` of the draws, and 64 values, of which `used` are taken. C knows its fields.
#[repr(C)]
#[derive(Clone, Copy)]
pub struct Random {
    pub next: u64,
    pub used: usize,
    pub queue: [f64; 64],
}

impl Random {
    // The noise at rest: every value counts as taken.
    pub fn new() -> Self
        ensures { result ≡ fresh_random }
    {
        Self {
            next: 1,
            used: 64,
            queue: [0.0; 64],
        }
    }

    // The next value; where all 64 are taken, the first of a new filling. Where that is dry, the noise stays as it was.
    pub fn nrandom(&mut self) -> Option<f64>
        ensures value { taken_of result self.new ≡ noise_of tries self.old }
        ensures unchanged { result ≡ None → self.new ≡ self.old }
    {
        if self.used >= VALUES {
            self.next = fill_queue(self.next, &mut self.queue)?;
            self.used = 0;
        }
        let value = self.queue[self.used];
        self.used += 1;
        Some(value)
    }
}

// Fills the queue with 32 pairs, found one after the other from `next` on, and gives `next` after them. Where one is dry, the queue stays as it was.
fn fill_queue(next: u64, queue: &mut [f64; 64]) -> Option<u64>
    ensures queue_after { filled_of result queue.new ≡ filling_of tries next }
    ensures queue_unchanged { result ≡ None → queue.new ≡ queue.old }
{
    let mut firsts = [0.0; 32];
    let mut seconds = [0.0; 32];
    let mut sums = [0.0; 32];
    let after = find_pairs(next, &mut firsts, &mut seconds, &mut sums)?;
    let mut weights = [0.0; 32];
    weigh(&sums, &mut weights);
    let mut near = [0.0; 32];
    estimate(&weights, &mut near);
    multiply(&firsts, &seconds, &weights, &near, queue);
    Some(after)
}
