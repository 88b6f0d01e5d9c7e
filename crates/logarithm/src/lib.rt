// The natural logarithm, within 2^-48 of the exact one of document 01. The error is counted in
// factors of 1 + 2^-53, one for each rounding; 31 of them stay within 2^-48.
#![tactic(auto)]

ghost use Rattle.std.specs.Prelude.{◌≡◌, ◌≤◌, ◌<◌, T, Ok};
ghost use Rattle.elementary.specs.Exact.{ln_inside, LnAnswer};
ghost use Rattle.logarithm.specs.Ln.{sum_of, near_one, of_pattern, ln_of};

use elementary::answer::Outside;

// 1 + z/3 + z^2/5 + .. + z^10/21, by Horner's rule, each coefficient the nearest float. For a z
// within 5 factors of t^2, t at most 1/5: each level within 3, since z times the level inside it is
// at most 1/24 of its coefficient. The terms from z^11 to z^31 count one more: 4.
fn sum(z: f64) -> f64
    ensures { result ≡ sum_of z }
{
    let h9 = 0.05263157894736842 + z * 0.047619047619047616;
    let h8 = 0.058823529411764705 + z * h9;
    let h7 = 0.06666666666666667 + z * h8;
    let h6 = 0.07692307692307693 + z * h7;
    let h5 = 0.09090909090909091 + z * h6;
    let h4 = 0.1111111111111111 + z * h5;
    let h3 = 0.14285714285714285 + z * h4;
    let h2 = 0.2 + z * h3;
    let h1 = 0.3333333333333333 + z * h2;
    1.0 + z * h1
}

// The logarithm of an m from 3/4 up and below 3/2: with t = (m - 1) / (m + 1), twice the sum of
// t^(2j+1) / (2j+1). The sign is t's.
fn near_one(m: f64) -> f64
    ensures { result ≡ near_one m }
{
    // m - 1 is exact, m + 1 has one factor: t has 2, t * t 5, 2 * t 3, and the answer 3 + 4 + 1
    let t = (m - 1.0) / (m + 1.0);
    2.0 * t * sum(t * t)
}

// The logarithm of the number 2^k * m that a normal pattern b stands for, 3/4 <= m < 3/2: k times
// that of 2, and that of m. The field e is k + 1023.
fn of_pattern(b: u64) -> f64
    requires { (0x10_0000_0000_0000 ≤ b) × (b < 0x7ff0_0000_0000_0000) }
    ensures { result ≡ of_pattern b }
{
    let e = (b + 0x8_0000_0000_0000) / 0x10_0000_0000_0000;
    let m = f64::from_bits(b + 0x3ff0_0000_0000_0000 - e * 0x10_0000_0000_0000);
    // k is exact, the constant has one factor: a has 2, and is +0 where k is 0
    let a = ((e as f64) - 1023.0) * 0.6931471805599453;
    // where k is 0: 8 + 1. Else ln m is at most 5/8 of a: 6 where the signs are alike, and 20 where
    // they are not. The sum is made for every m, so that of many patterns the compiler makes vectors.
    let whole = a + near_one(m);
    if m == 1.0 { a } else { whole }
}

// The logarithm of an x that is known to be positive, normal and finite.
pub fn ln_inside(x: f64) -> f64
    requires { T (ln_inside x) }
    ensures result_value { Ok result ≡ ln_of x }
    ensures ln_answer { LnAnswer x (Ok result) }
{
    of_pattern(x.to_bits())
}

// The logarithm of a positive, normal and finite x; of any other it is outside.
pub fn ln(x: f64) -> Result<f64, Outside>
    ensures value { result ≡ ln_of x }
    ensures ln_answer { LnAnswer x result }
{
    if 2.2250738585072014e-308 <= x {
        if x < 1.0 / 0.0 {
            return Ok(ln_inside(x));
        }
    }
    Err(Outside)
}
