// The square root of IEEE 754, correctly rounded, on the bit pattern in whole numbers.
// It stands beside std's: `root_nearest` and `root_only` are about this one, and it takes an estimate that a loop may make.
#![tactic(auto)]

ghost use Rattle.std.specs.Prelude.{◌≡◌, ◌<◌, ◌≤◌};
ghost use Rattle.root.specs.Root.{root_of};
ghost use Rattle.root.specs.Root.{root_of_units};
ghost use Rattle.root.specs.Parts.{pattern_units};

mod checked;
mod digits;
mod pattern;

use crate::checked::{checked, guess};
use crate::pattern::split;

// A float near the root of x, or, where x is subnormal, near 2^27 times it. Nothing is claimed of it, since it is tested. The inverse root from half the
// pattern, within 0.035; three of Newton's steps for it, and one for the root itself. It has no branch, so that of many x the compiler makes vectors.
pub fn estimate(x: f64) -> f64 {
    let large = x * 18014398509481984.0;
    let y = if x < 2.2250738585072014e-308 {
        large
    } else {
        x
    };
    let half = number::bits::bits_of(y) % 0x8000_0000_0000_0000 / 2;
    let r0 = f64::from_bits(0x5fe6_eb50_c7b5_37a9 - half);
    let h = 0.5 * y;
    let r1 = r0 * (1.5 - h * (r0 * r0));
    let r2 = r1 * (1.5 - h * (r1 * r1));
    let r3 = r2 * (1.5 - h * (r2 * r2));
    let s = y * r3;
    s + (y - s * s) * (0.5 * r3)
}

// The root of the number above zero that the pattern b stands for. It takes little time where the estimate is good.
fn rounded(b: u64, near: f64) -> f64
    requires { (1 ≤ b) × (b < 0x7ff0_0000_0000_0000) }
    ensures { result ≡ root_of_units (pattern_units b) }
{
    let p = split(b);
    let m = p.m;
    let j = p.j;
    let root = checked(m, guess(near));
    f64::from_bits((j + 484) * 0x10_0000_0000_0000 + root)
}

// The square root of x: NaN of a NaN and below zero, a zero and the infinity of themselves. Whatever `near` is, the root is the same; with an estimate
// it is found quickly. A loop may make the estimates of many x first.
pub fn sqrt_near(x: f64, near: f64) -> f64
    ensures { result ≡ root_of x }
{
    if 0.0 < x {
        if x < 1.0 / 0.0 {
            return rounded(x.to_bits(), near);
        }
        return x;
    }
    if x == 0.0 {
        return x;
    }
    0.0 / 0.0
}

// The square root of x.
pub fn sqrt(x: f64) -> f64
    ensures { result ≡ root_of x }
{
    sqrt_near(x, estimate(x))
}
