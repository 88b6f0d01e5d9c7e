// The filter `fir` on five rows of taps at once: two pairs of lanes, and a row by itself. In one loop the five chains of sums, each of which has to wait
// for itself, fill the time of one. The rows go as `first`, `second`, `last`: a struct of three `&mut` would want a clause for each, in every function
// that takes it, that the reference is still the same.
// `start_all`, `group_all` and `tap_all` stay three: their steps take other arguments.
ghost use Rattle.std.specs.Prelude.{◌≡◌, ℕ, ◌+◌, ◌-◌, ◌*◌, ◌/◌, ◌≤◌, ◌<◌, length};
ghost use Rattle.fir.specs.Fir.{start, group, tap, groups, singles, fir_of};
ghost use Rattle.lanes.specs.Rows.{row_at, number_at, taps_at};

use crate::{Pair, group, start, tap};
use fir::Carried;

// What there is for each row: a number, or what is carried from tap to tap.
#[derive(Clone, Copy)]
pub struct Five<T> {
    pub first: Pair<T>,
    pub second: Pair<T>,
    pub last: T,
}

// The first two taps.
fn start_all(
    first: &mut [f64],
    second: &mut [f64],
    last: &mut [f64],
    a: f64,
    x: Five<f64>,
    n: usize,
) -> Five<Carried>
    requires { (1 < n) × (2 * n ≤ length first.old) × (2 * n ≤ length second.old) × (length last.old ≡ n) }
    ensures { (k : ℕ) → k < 5 → taps_at k n first.new second.new last.new result
        ≡ start a (number_at k x) (row_at k n first.old second.old last.old) }
{
    Five {
        first: start(first, a, x.first, n),
        second: start(second, a, x.second, n),
        last: fir::start(last, a, x.last),
    }
}

// Four taps from index i on.
fn group_all(
    first: &mut [f64],
    second: &mut [f64],
    last: &mut [f64],
    a: f64,
    c: &[f64],
    i: usize,
    s: Five<Carried>,
) -> Five<Carried>
    requires { (i + 3 < length c.now) × (2 * length c.now ≤ length first.old) × (2 * length c.now ≤ length second.old) × (length last.old ≡ length c.now) }
    ensures { (k : ℕ) → k < 5 → taps_at k (length c.now) first.new second.new last.new result
        ≡ group a c.now i (taps_at k (length c.now) first.old second.old last.old s) }
{
    Five {
        first: group(first, a, c, i, s.first),
        second: group(second, a, c, i, s.second),
        last: fir::group(last, a, c, i, s.last),
    }
}

// One tap, at index i.
fn tap_all(
    first: &mut [f64],
    second: &mut [f64],
    last: &mut [f64],
    a: f64,
    c: &[f64],
    i: usize,
    s: Five<Carried>,
) -> Five<Carried>
    requires { (i < length c.now) × (2 * length c.now ≤ length first.old) × (2 * length c.now ≤ length second.old) × (length last.old ≡ length c.now) }
    ensures { (k : ℕ) → k < 5 → taps_at k (length c.now) first.new second.new last.new result
        ≡ tap a c.now i (taps_at k (length c.now) first.old second.old last.old s) }
{
    Five {
        first: tap(first, a, c, i, s.first),
        second: tap(second, a, c, i, s.second),
        last: fir::tap(last, a, c, i, s.last),
    }
}

// The groups of four from index 2 on, as many as there are.
fn groups(
    first: &mut [f64],
    second: &mut [f64],
    last: &mut [f64],
    a: f64,
    c: &[f64],
    begun: Five<Carried>,
) -> Five<Carried>
    requires { (2 ≤ length c.now) × (2 * length c.now ≤ length first.old) × (2 * length c.now ≤ length second.old) × (length last.old ≡ length c.now) }
    ensures { (k : ℕ) → k < 5 → taps_at k (length c.now) first.new second.new last.new result
        ≡ groups a c.now ((length c.now - 2) / 4) 2 (taps_at k (length c.now) first.old second.old last.old begun) }
{
    let mut s = begun;
    for g in 0..(c.len() - 2) / 4 {
        let i = 2 + 4 * g;
        s = group_all(first, second, last, a, c, i, s);
    }
    s
}

// The taps from index `from` on, one by one.
fn singles(
    first: &mut [f64],
    second: &mut [f64],
    last: &mut [f64],
    a: f64,
    c: &[f64],
    from: usize,
    begun: Five<Carried>,
) -> Five<Carried>
    requires { (from ≤ length c.now) × (2 * length c.now ≤ length first.old) × (2 * length c.now ≤ length second.old) × (length last.old ≡ length c.now) }
    ensures { (k : ℕ) → k < 5 → taps_at k (length c.now) first.new second.new last.new result
        ≡ singles a c.now (length c.now - from) from (taps_at k (length c.now) first.old second.old last.old begun) }
{
    let mut s = begun;
    for i in from..c.len() {
        s = tap_all(first, second, last, a, c, i, s);
    }
    s
}

// The answer of each row, whose taps after it are left in the lists.
pub fn fir(
    first: &mut [f64],
    second: &mut [f64],
    last: &mut [f64],
    x: Five<f64>,
    alpha: f64,
    c: &[f64],
) -> Five<f64>
    requires { (2 ≤ length c.now) × (2 * length c.now ≤ length first.old) × (2 * length c.now ≤ length second.old) × (length last.old ≡ length c.now) }
    ensures { (k : ℕ) → k < 5 → record { d = row_at k (length c.now) first.new second.new last.new; y = number_at k result }
        ≡ fir_of alpha (number_at k x) c.now (row_at k (length c.now) first.old second.old last.old) }
{
    let n = c.len();
    let begun = start_all(first, second, last, alpha, x, n);
    let grouped = groups(first, second, last, alpha, c, begun);
    let from = 2 + (n - 2) / 4 * 4;
    let s = singles(first, second, last, alpha, c, from, grouped);
    Five {
        first: Pair {
            a: s.first.a.y0 + s.first.a.y1,
            b: s.first.b.y0 + s.first.b.y1,
        },
        second: Pair {
            a: s.second.a.y0 + s.second.a.y1,
            b: s.second.b.y0 + s.second.b.y1,
        },
        last: s.last.y0 + s.last.y1,
    }
}
