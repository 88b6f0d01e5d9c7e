// The sum of the cosine's series, to the power 62.
ghost use Rattle.std.specs.Prelude.{◌≡◌, ◌+◌, ◌-◌, ◌*◌, ◌/◌, ◌^◌, ◌<◌, ◌≤◌};
ghost use Rattle.cosine.specs.Cos.{one, turn, steps, fall_of, float_of, one_less};
ghost use Rattle.cosine.specs.Sides.{Squares, Steps};

use crate::product::high_product;

// Two of a kind side by side. Each step of the series waits for the one before it: two series, taken step by step together, last hardly longer than one.
#[derive(Clone, Copy)]
pub(crate) struct Pair<T> {
    pub(crate) first: T,
    pub(crate) second: T,
}

// a * p in units, rounded down.
fn times(a: u64, p: u64) -> u64
    requires { (a ≤ 10 * one) × (p ≤ one) }
    ensures { result ≡ a * p / one }
{
    high_product(a << 1, p << 4)
}

// A step of the series from within: 1 - a / divisor * p. The divisors are written out, since a division by a constant is a product.
fn step(a: u64, p: u64, divisor: u64) -> u64
    requires { (a ≤ 10 * one) × (p ≤ one) × (12 ≤ divisor) }
    ensures { (result ≡ one - a * p / (one * divisor)) × (result ≤ one) }
{
    576460752303423488 - times(a, p) / divisor
}

// A step of each of two series, with the same divisor.
fn step_both(a: Pair<u64>, p: Pair<u64>, divisor: u64) -> Pair<u64>
    requires squares { Squares a }
    requires inner { (p.first ≤ one) × (p.second ≤ one) × (12 ≤ divisor) }
    ensures first_value { (result.first ≡ one - a.first * p.first / (one * divisor)) × (result.first ≤ one) }
    ensures second_value { (result.second ≡ one - a.second * p.second / (one * divisor)) × (result.second ≤ one) }
{
    Pair {
        first: step(a.first, p.first, divisor),
        second: step(a.second, p.second, divisor),
    }
}

// The innermost ten of each, with the divisors 61 * 62 to 43 * 44.
fn innermost(a: Pair<u64>) -> Pair<u64>
    requires { Squares a }
    ensures { Steps a 21 10 result }
{
    let p31 = Pair {
        first: 576460752303423488,
        second: 576460752303423488,
    };
    let p30 = step_both(a, p31, 3782);
    let p29 = step_both(a, p30, 3540);
    let p28 = step_both(a, p29, 3306);
    let p27 = step_both(a, p28, 3080);
    let p26 = step_both(a, p27, 2862);
    let p25 = step_both(a, p26, 2652);
    let p24 = step_both(a, p25, 2450);
    let p23 = step_both(a, p24, 2256);
    let p22 = step_both(a, p23, 2070);
    step_both(a, p22, 1892)
}

// The ten around them, with 41 * 42 to 23 * 24.
fn between(a: Pair<u64>, p: Pair<u64>) -> Pair<u64>
    requires squares { Squares a }
    requires inner { Steps a 21 10 p }
    ensures { Steps a 11 20 result }
{
    let p20 = step_both(a, p, 1722);
    let p19 = step_both(a, p20, 1560);
    let p18 = step_both(a, p19, 1406);
    let p17 = step_both(a, p18, 1260);
    let p16 = step_both(a, p17, 1122);
    let p15 = step_both(a, p16, 992);
    let p14 = step_both(a, p15, 870);
    let p13 = step_both(a, p14, 756);
    let p12 = step_both(a, p13, 650);
    step_both(a, p12, 552)
}

// Of each, 1 - a / (3 * 4) * (1 - a / (5 * 6) * (1 - ..)), to the divisor 61 * 62.
// a is within 24 units of the exact square and at most 10; 24 units and those of the inner part, 10 * 32, over 12, and one: within 32 units again at each step.
fn inner(a: Pair<u64>) -> Pair<u64>
    requires { Squares a }
    ensures { Steps a 1 steps result }
{
    let p = between(a, innermost(a));
    let p10 = step_both(a, p, 462);
    let p9 = step_both(a, p10, 380);
    let p8 = step_both(a, p9, 306);
    let p7 = step_both(a, p8, 240);
    let p6 = step_both(a, p7, 182);
    let p5 = step_both(a, p6, 132);
    let p4 = step_both(a, p5, 90);
    let p3 = step_both(a, p4, 56);
    let p2 = step_both(a, p3, 30);
    step_both(a, p2, 12)
}

// n units, to the nearest multiple of 2^-51: within 128 units, and exact from there.
fn float_of(n: u64) -> f64
    requires { n + 128 < 2 ^ 61 }
    ensures { result ≡ float_of n }
{
    (((n + 128) >> 8) as f64) * 4.44089209850062616169452667236328125e-16
}

// The square of r, which is below 3.15.
// The bound is a clause and no type's invariant: a type around one number, taken off again in the line that uses it, is no plainer.
fn square(r: u64) -> u64
    requires { 2 * r ≤ turn }
    ensures { (result ≡ r * r / one) × (400 * result ≤ 3969 * one) }
{
    high_product(r << 2, r << 3)
}

// The cosine of an angle of square a, p being the inner part: 1 - a / 2 * p. The product is within 174 units, and with the last 128 the cosine is within 302: 2^-44 is 32768.
fn cos_of_square(a: u64, p: u64) -> f64
    requires { (400 * a ≤ 3969 * one) × (p ≤ one) }
    ensures { result ≡ one_less (a * p / (one * 2)) }
{
    let fall = times(a, p) / 2;
    if fall > 576460752303423488 {
        -float_of(fall - 576460752303423488)
    } else {
        float_of(576460752303423488 - fall)
    }
}

// The cosines of two rests.
pub(crate) fn cos_of_rests(r: Pair<u64>) -> Pair<f64>
    requires { (2 * r.first ≤ turn) × (2 * r.second ≤ turn) }
    ensures { (result.first ≡ one_less (fall_of r.first)) × (result.second ≡ one_less (fall_of r.second)) }
{
    let a = Pair {
        first: square(r.first),
        second: square(r.second),
    };
    let p = inner(a);
    Pair {
        first: cos_of_square(a.first, p.first),
        second: cos_of_square(a.second, p.second),
    }
}
