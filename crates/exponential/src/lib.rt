// e to the power of a float.
#![tactic(auto)]

ghost use Rattle.std.specs.Prelude.{◌≡◌, ◌+◌, ◌-◌, ◌*◌, ◌^◌, ◌≤◌};
ghost use Rattle.elementary.specs.Exact.{ExpAnswer};
ghost use Rattle.number.specs.F64.{◌⊗◌};
ghost use Rattle.exponential.specs.Exp.{multiples, power_of_two, rest_of, sum_at, inside_of, exp_of};

mod polynomial;
mod reduction;

use crate::polynomial::polynomial;
use crate::reduction::{multiple, nearest, units};

// 2^k, or 2^-k.
fn power_of_two(negative: bool, k: u64) -> f64
    requires { k ≤ 1023 }
    ensures { result ≡ power_of_two negative k }
{
    let e = if negative { 1023 - k } else { 1023 + k };
    f64::from_bits(e << 52)
}

// The rest u - m as a float, m - u where the argument is negative: whole, below 2^53, times a power
// of two, and so exact. Its sign is worked out and not branched on, since no processor can guess it.
fn rest(negative: bool, u: u64, m: u64) -> f64
    requires { (u - m) + (m - u) ≤ 2 ^ 53 }
    ensures { result ≡ rest_of negative u m }
{
    let over = u.wrapping_sub(m) / 0x8000_0000_0000_0000;
    let sign = u64::from(negative);
    let unit = 0x3c90_0000_0000_0000 + (sign + over) % 2 * 0x8000_0000_0000_0000;
    (u.abs_diff(m) as f64) * f64::from_bits(unit)
}

// What e^x is made of: the argument of the sum, and what the sum is multiplied by.
#[derive(Clone, Copy)]
pub struct Parts {
    pub rest: f64,
    pub power: f64,
}

// The parts for an argument of u units and its k.
fn inside(negative: bool, u: u64, k: u64) -> Parts
    requires { (k ≤ 1023) × ((u - multiples (2 * k)) + (multiples (2 * k) - u) ≤ 2 ^ 53) }
    ensures { sum_at result.rest ⊗ result.power ≡ inside_of negative u k }
{
    let m = multiple(2 * k);
    Parts {
        rest: rest(negative, u, m),
        power: power_of_two(negative, k),
    }
}

// The parts of e^x. Outside the range, and of the NaN, the sum is 1 and the power the answer.
pub fn split(x: f64) -> Parts
    ensures { sum_at result.rest ⊗ result.power ≡ exp_of x }
{
    if x.is_nan() {
        return Parts {
            rest: 0.0,
            power: x,
        };
    }
    if x > 709.0 {
        return Parts {
            rest: 0.0,
            power: 1.0 / 0.0,
        };
    }
    if x < -708.0 {
        return Parts {
            rest: 0.0,
            power: 0.0,
        };
    }
    let b = x.to_bits();
    let u = units(b % 0x8000_0000_0000_0000);
    inside(b >= 0x8000_0000_0000_0000, u, nearest(u))
}

// e^x from its parts: the sum times the power. With the parts of many x in arrays, the compiler makes vectors of it.
pub fn joined(rest: f64, power: f64) -> f64
    ensures { result ≡ sum_at rest ⊗ power }
{
    polynomial(rest) * power
}

// e^x: NaN of the NaN, the infinity above 709, zero below -708.
// Off the exact value, in factors of 1 + 2^-53: 5 for the polynomial in floats, 2 for its argument,
// which is within 2^-54, 3 for the terms from 13 to 31, none for the power of two. That is 10, and
// the band of 2^-48 has room for 31.
pub fn exp(x: f64) -> f64
    ensures value { result ≡ exp_of x }
    ensures exp_answer { ExpAnswer x result }
{
    let p = split(x);
    joined(p.rest, p.power)
}
