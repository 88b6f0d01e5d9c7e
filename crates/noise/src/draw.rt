// A draw of the congruence, and a try of two draws.
ghost use Rattle.std.specs.Prelude.{◌≡◌};
ghost use Rattle.noise.specs.Draw.{draw_of, value_of, try_of};

use number::wrapping::{wrapping_add, wrapping_mul};

// What a try takes from two draws: r1, r2, the sum s of their squares, and the state after them.
#[derive(Clone, Copy)]
pub struct Try {
    pub r1: f64,
    pub r2: f64,
    pub s: f64,
    pub next: u64,
}

// The state after a draw from `next`, by number's own wrapping functions: document 01 wants them here.
fn draw(next: u64) -> u64
    ensures { result ≡ draw_of next }
{
    wrapping_add(wrapping_mul(next, 1103515245), 12345)
}

// The value that a draw gave, by the state after it.
fn value(next: u64) -> f64
    ensures { result ≡ value_of next }
{
    let r = next / 65536 % 32768;
    r as f64 / 32767.0
}

// A try from `next`.
pub fn attempt(next: u64) -> Try
    ensures { result ≡ try_of next }
{
    let first = draw(next);
    let second = draw(first);
    let r1 = 2.0 * value(first) - 1.0;
    let r2 = 2.0 * value(second) - 1.0;
    Try {
        r1,
        r2,
        s: r1 * r1 + r2 * r2,
        next: second,
    }
}
