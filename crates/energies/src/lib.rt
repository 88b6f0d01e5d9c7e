// The energies of two lists of coefficients at once. Each sum of an impulse response waits for itself only, so the two responses grow side
// by side; and it ends where no later term can change it.
#![tactic(auto)]

ghost use Rattle.std.specs.Prelude.{◌≡◌, ◌+◌, ◌-◌, ◌≤◌, ◌<◌, length};
ghost use Rattle.number.specs.F64.{0f};
ghost use Rattle.vectors.specs.Vectors.{sum_from, energy_of};
ghost use Rattle.cepstrum.specs.Cepstrum.{c2ir_of, b2en_of};
ghost use Rattle.cepstrum.specs.Weights.{weighed_term};
ghost use Rattle.energies.specs.Pairs.{evens, odds};
ghost use Rattle.energies.specs.Sizes.{Tops, Highest};

use cepstrum::cepstrum::weights;
use cepstrum::coefficients::b2c;
use lost::{later, unmoved};

// Of both, the sum d with the terms w[k] * r[n - k] added, k from `from` to below `to`. Two terms a turn, so that the two sums stay side by side in one register.
fn terms(
    w: &[f64; 1152],
    r: &[f64; 1152],
    n: usize,
    from: usize,
    to: usize,
    d: (f64, f64),
) -> (f64, f64)
    requires { (n < 576) × (from ≤ to) × (to ≤ n + 1) }
    ensures { (result.0 ≡ sum_from (weighed_term (evens w.now) (evens r.now) n) from (to - from) d.0) × (result.1 ≡ sum_from (weighed_term (odds w.now) (odds r.now) n) from (to - from) d.1) }
{
    let last = 2 * n;
    let (mut first, mut second) = d;
    for t in 0..(to - from) / 2 {
        let k = from + 2 * t;
        let i = 2 * k;
        let j = last - i;
        first = first + w[i] * r[j] + w[i + 2] * r[j - 2];
        second = second + w[i + 1] * r[j + 1] + w[i + 3] * r[j - 1];
    }
    if (to - from) % 2 == 1 {
        let k = to - 1;
        let i = 2 * k;
        let j = last - i;
        first += w[i] * r[j];
        second += w[i + 1] * r[j + 1];
    }
    (first, second)
}

// For each place the latest pattern, so the largest size, of the entries from there on.
fn tops(w: &[f64; 1152]) -> [u64; 1152]
    ensures { Tops 1152 result w.now }
{
    let mut tops = [0; 1152];
    let mut top = 0;
    for i in (0..1152).rev() {
        top = later(top, w[i]);
        tops[i] = top;
    }
    tops
}

// Of both, the sum of w[k] * r[n - k] for k from 1 to n. After every 32 terms it is seen whether any later one can still change either sum: those from
// `next` on have a weight of tops[2 * next] at most, and a response of `high`.
fn sums(w: &[f64; 1152], tops: &[u64; 1152], r: &[f64; 1152], high: u64, n: usize) -> (f64, f64)
    requires n_bound { n < 576 }
    requires tops { Tops 1152 tops.now w.now × Highest high n r.now }
    ensures { (result.0 ≡ sum_from (weighed_term (evens w.now) (evens r.now) n) 1 n 0f) × (result.1 ≡ sum_from (weighed_term (odds w.now) (odds r.now) n) 1 n 0f) }
{
    let mut d = (0.0, 0.0);
    let blocks = n / 32;
    for t in 0..blocks {
        let k = 1 + 32 * t;
        let next = k + 32;
        d = terms(w, r, n, k, next, d);
        let top = tops[2 * next];
        if unmoved(d.0, top, high) && unmoved(d.1, top, high) {
            return d;
        }
    }
    terms(w, r, n, 1 + 32 * blocks, n + 1, d)
}

// The two lists in one, entry i of both at 2 * i and 2 * i + 1.
fn interleaved(one: &[f64; 576], other: &[f64; 576]) -> [f64; 1152]
    ensures { (evens result ≡ one.now) × (odds result ≡ other.now) }
{
    let mut both = [0.0; 1152];
    for i in 0..576 {
        both[2 * i] = one[i];
        both[2 * i + 1] = other[i];
    }
    both
}

// The energies of the impulse responses r1 and r2 of two cepstra, all of 576 entries. r is both, interleaved as the sums read them.
fn responses(c1: &[f64; 576], c2: &[f64; 576]) -> (f64, f64)
    ensures { (result.0 ≡ energy_of (c2ir_of 576 c1.now)) × (result.1 ≡ energy_of (c2ir_of 576 c2.now)) }
{
    let w1 = weights(c1);
    let w2 = weights(c2);
    let w = interleaved(&w1, &w2);
    let tops = tops(&w);
    let gain1 = exponential::exp(c1[0]);
    let gain2 = exponential::exp(c2[0]);
    let mut r1 = [0.0; 576];
    let mut r2 = [0.0; 576];
    let mut r = [0.0; 1152];
    r1[0] = gain1;
    r2[0] = gain2;
    r[0] = gain1;
    r[1] = gain2;
    let mut high = later(later(0, gain1), gain2);
    for n in 1..576 {
        let d = sums(&w, &tops, &r, high, n);
        let next1 = d.0 / n as f64;
        let next2 = d.1 / n as f64;
        r1[n] = next1;
        r2[n] = next2;
        r[2 * n] = next1;
        r[2 * n + 1] = next2;
        high = later(later(high, next1), next2);
    }
    (vectors::energy(&r1), vectors::energy(&r2))
}

// The energies of b1 and b2.
pub fn b2en_both(b1: &[f64], b2: &[f64], alpha: f64) -> (f64, f64)
    requires { (1 ≤ length b1.now) × (length b1.now ≤ 64) × (1 ≤ length b2.now) × (length b2.now ≤ 64) }
    ensures { (result.0 ≡ b2en_of alpha b1.now) × (result.1 ≡ b2en_of alpha b2.now) }
{
    let c1 = b2c(b1, alpha);
    let c2 = b2c(b2, alpha);
    responses(&c1, &c2)
}
