// Powers of a float with the exponents -s and -1 / s, for a base from 2^-120 to 2^120 and an s from 1 to 8.
#![tactic(auto)]

ghost use Rattle.std.specs.Prelude.{◌≡◌, ◌+◌, ◌*◌, ◌/◌, ◌^◌, ◌<◌, ◌≤◌};
ghost use Rattle.std.specs.Float.{binary64};
ghost use Rattle.std.specs.Float.Ieee.{lt, of_bits};
ghost use Rattle.number.specs.F64.{1f};
ghost use Rattle.elementary.specs.Exact.{power_inside, InversePower, InverseRoot};
ghost use Rattle.power.specs.Power.{products, half, digits, root_of_pattern, inverse_power_of, inverse_root_of};

use elementary::answer::Outside;

// 2^120, the largest base.
const MOST: f64 = 1.329227995784916e36;

// 2^-120, the smallest.
const LEAST: f64 = 7.52316384526264e-37;

// Whether the base and the stage are inside. That s is from 1 to 8 is a clause of what follows and no type's invariant: a type around one number is no plainer.
fn inside(a: f64, s: u64) -> bool
    ensures { result ≡ power_inside a s }
{
    number::range::within(a, LEAST, MOST) && 1 <= s && s <= 8
}

// x * c^n by n products: n factors of 1 + 2^-53.
fn times(x: f64, c: f64, n: u64) -> f64
    ensures { result ≡ products x c n }
{
    let mut p = x;
    for i in 0..n {
        p = p * c;
    }
    p
}

// Whether v * c^s is below 1 for the c of the digits m.
fn is_below(v: f64, s: u64, m: u64) -> bool
    requires { m ≤ 0x10_0000_0000_0000 }
    ensures { result ≡ lt (products v (half m) s) 1f }
{
    times(v, f64::from_bits(0x3fe0_0000_0000_0000 + m), s) < 1.0
}

// The last `count` digits from `start` on, one a turn: a digit is 1 where v * c^s is then below 1. So c is
// at most the root and the next number at least, up to the s factors of a test.
fn digits_from(v: f64, s: u64, count: u64, start: u64) -> u64
    requires { (count ≤ 52) × (start + 2 ^ count ≤ 0x10_0000_0000_0000) }
    ensures value { result ≡ digits v s count start }
    ensures upper_bound { result < 0x10_0000_0000_0000 }
{
    let mut m = start;
    for n in (0..count).rev() {
        let next = m + (1 << n);
        if is_below(v, s, next) {
            m = next;
        }
    }
    m
}

// A step towards v^(-1 / s), where part is 1 / s and more is (s + 1) / 2: the series of
// c * (1 - x)^(-1 / s) up to x^2, for the x that v * c^s leaves of 1. The error is then of the third order.
fn closer(v: f64, s: u64, c: f64, part: f64, more: f64) -> f64 {
    let rest = (1.0 - times(v, c, s)) * part;
    c + c * (rest + more * (rest * rest))
}

// A guess of the digits for the v of the pattern b, three steps from a line through the patterns that is
// 3/64 of an exponent below the one through 1, so that it errs both ways. Nothing is claimed: it is tested.
fn guess(b: u64, s: u64) -> u64
    requires fact_1 { (0x3ff0_0000_0000_0000 ≤ b) × (b < 0x4070_0000_0000_0000) }
    requires fact_2 { (1 ≤ s) × (s ≤ 8) }
    ensures { result < 0x10_0000_0000_0000 }
{
    let v = f64::from_bits(b);
    let n = s as f64;
    let part = 1.0 / n;
    let more = (n + 1.0) * 0.5;
    let first = f64::from_bits(0x3fef_4000_0000_0000 - (b - 0x3ff0_0000_0000_0000) / s);
    let second = closer(v, s, first, part, more);
    let third = closer(v, s, second, part, more);
    number::bits::bits_of(closer(v, s, third, part, more)) % 0x10_0000_0000_0000
}

// The 52 digits after the first one of a c from 1/2 to 1 whose v * c^s is about 1, for the v of the pattern
// b, from 1 to 2^s. The test only goes from true to false as c grows, so where it does so within four
// numbers around the guess, the search among these finds what the whole search finds.
fn root_digits(b: u64, s: u64) -> u64
    requires fact_1 { (0x3ff0_0000_0000_0000 ≤ b) × (b < (1023 + s) * 0x10_0000_0000_0000) }
    requires fact_2 { s ≤ 8 }
    ensures value { result ≡ digits (of_bits binary64 b) s 52 0 }
    ensures upper_bound { result < 0x10_0000_0000_0000 }
{
    let v = f64::from_bits(b);
    let near = guess(b, s);
    if near >= 2 {
        if near <= 0xf_ffff_ffff_fffe {
            let low = near - 2;
            if is_below(v, s, low) {
                if !is_below(v, s, low + 4) {
                    return digits_from(v, s, 2, low);
                }
            }
        }
    }
    digits_from(v, s, 52, 0)
}

// The inverse root of the number of the pattern b, which is v * 2^(t - t % s - 840) with v from 1 to 2^s
// and `part` its pattern. The first c above the digits times a power of two: the scaling is exact.
fn root_of(b: u64, s: u64) -> f64
    requires fact_1 { (903 ≤ b / 0x10_0000_0000_0000) × (b / 0x10_0000_0000_0000 ≤ 1143) }
    requires fact_2 { (1 ≤ s) × (s ≤ 8) }
    ensures { result ≡ root_of_pattern b s }
{
    let t = b / 0x10_0000_0000_0000 - 183;
    let part = b % 0x10_0000_0000_0000 + (t % s + 1023) * 0x10_0000_0000_0000;
    let m = root_digits(part, s);
    f64::from_bits(m + 1 + (1022 + 840 / s - t / s) * 0x10_0000_0000_0000)
}

// The two tests stand here and in inverse_root: a closure for what is made past them, with its requires and its clause, is no plainer.
// a^-s. s - 1 products and a quotient: r * a^s is within 8 factors of 1 + 2^-53 of 1, and the band is 2^-44.
pub fn inverse_power(a: f64, s: u64) -> Result<f64, Outside>
    ensures value { result ≡ inverse_power_of a s }
    ensures inverse_power { InversePower a s result }
{
    if !inside(a, s) {
        return Err(Outside);
    }
    if a == 1.0 {
        return Ok(1.0);
    }
    Ok(1.0 / times(a, a, s - 1))
}

// a^(-1 / s). s factors of the tests and 2 * s of the step from one c to the next (a part in 2^52): r^s * a
// is within 24 factors of 1 + 2^-53 of 1, and the band is 2^-40.
pub fn inverse_root(a: f64, s: u64) -> Result<f64, Outside>
    ensures value { result ≡ inverse_root_of a s }
    ensures inverse_root { InverseRoot a s result }
{
    if !inside(a, s) {
        return Err(Outside);
    }
    if a == 1.0 {
        return Ok(1.0);
    }
    Ok(root_of(a.to_bits(), s))
}
