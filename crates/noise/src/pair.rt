// The first try that is accepted, and the square of what its two numbers are multiplied by.
ghost use Rattle.std.specs.Prelude.{◌≡◌, T};
ghost use Rattle.elementary.specs.Exact.{ln_inside};
ghost use Rattle.noise.specs.Draw.{tries};
ghost use Rattle.noise.specs.Noise.{found_of};
ghost use Rattle.noise.specs.Gathering.{weight_of};

use crate::draw::{Try, attempt};
use number::range::strictly_within;

// The first accepted try from `next` on, of 4,096 at most. A loop that yields it by break: document 01 wants this form here.
pub fn find_pair(next: u64) -> Option<Try>
    ensures { result ≡ found_of tries next }
{
    let mut next = next;
    let mut left: u64 = 4096;
    let found = loop {
        if left == 0 {
            break None;
        }
        let t = attempt(next);
        if strictly_within(t.s, 0.0, 1.0) {
            break Some(t);
        }
        next = t.next;
        left -= 1;
    };
    found
}

// -2 ln s / s.
pub fn weight(s: f64) -> f64
    requires { T (ln_inside s) }
    ensures { result ≡ weight_of s }
{
    -2.0 * logarithm::ln_inside(s) / s
}
