// Several filters `fir` at once, each doing what `fir` does. Here two on rows of taps that stand side by side: entry 2 * i + k is tap i of row k. With
// four lanes in one list x86-64 has too few registers for what is carried; `five` takes two such pairs one after the other.
#![tactic(auto)]

ghost use Rattle.std.specs.Prelude.{◌≡◌, ℕ, ◌+◌, ◌*◌, ◌≤◌, ◌<◌, length};
ghost use Rattle.fir.specs.Fir.{start, group, tap};
ghost use Rattle.lanes.specs.Lane.{lane, side, pair_at, put_pair, taps_of};

use fir::Carried;

pub mod five;

// What there is for each lane: a number, or what is carried from tap to tap.
#[derive(Clone, Copy)]
pub struct Pair<T> {
    pub a: T,
    pub b: T,
}

// Entry i of each lane.
pub fn at(l: &[f64], i: usize) -> Pair<f64>
    requires { 2 * i + 1 < length l.now }
    ensures { result ≡ pair_at l.now i }
{
    Pair {
        a: l[2 * i],
        b: l[2 * i + 1],
    }
}

// Entry i of each lane is set.
pub fn put(l: &mut [f64], i: usize, a: f64, b: f64)
    requires { 2 * i + 1 < length l.old }
    ensures { l.new ≡ put_pair l.old i (record { a = a; b = b }) }
{
    l[2 * i] = a;
    l[2 * i + 1] = b;
}

// The first two taps.
pub(crate) fn start(d: &mut [f64], a: f64, x: Pair<f64>, n: usize) -> Pair<Carried>
    requires { (1 < n) × (2 * n ≤ length d.old) }
    ensures { (k : ℕ) → k < 2 → taps_of k n d.new result ≡ start a (side k x) (lane k n d.old) }
{
    let d1 = at(d, 1);
    let ma = fir::first_two(a, x.a, d1.a);
    let mb = fir::first_two(a, x.b, d1.b);
    put(d, 0, ma.d[0], mb.d[0]);
    put(d, 1, ma.d[1], mb.d[1]);
    Pair { a: ma.on, b: mb.on }
}

// Four taps from index i on: all are read, then made, then stored.
pub(crate) fn group(d: &mut [f64], a: f64, c: &[f64], i: usize, s: Pair<Carried>) -> Pair<Carried>
    requires { (i + 3 < length c.now) × (2 * length c.now ≤ length d.old) }
    ensures { (k : ℕ) → k < 2 → taps_of k (length c.now) d.new result ≡ group a c.now i (taps_of k (length c.now) d.old s) }
{
    let i1 = i + 1;
    let i2 = i + 2;
    let i3 = i + 3;
    let d0 = at(d, i);
    let d1 = at(d, i1);
    let d2 = at(d, i2);
    let d3 = at(d, i3);
    let four = [c[i], c[i1], c[i2], c[i3]];
    let ma = fir::next_four(a, [d0.a, d1.a, d2.a, d3.a], four, s.a);
    let mb = fir::next_four(a, [d0.b, d1.b, d2.b, d3.b], four, s.b);
    put(d, i, ma.d[0], mb.d[0]);
    put(d, i1, ma.d[1], mb.d[1]);
    put(d, i2, ma.d[2], mb.d[2]);
    put(d, i3, ma.d[3], mb.d[3]);
    Pair { a: ma.on, b: mb.on }
}

// One tap, at index i.
pub(crate) fn tap(d: &mut [f64], a: f64, c: &[f64], i: usize, s: Pair<Carried>) -> Pair<Carried>
    requires { (i < length c.now) × (2 * length c.now ≤ length d.old) }
    ensures { (k : ℕ) → k < 2 → taps_of k (length c.now) d.new result ≡ tap a c.now i (taps_of k (length c.now) d.old s) }
{
    let d0 = at(d, i);
    let ma = fir::next_one(a, d0.a, c[i], s.a);
    let mb = fir::next_one(a, d0.b, c[i], s.b);
    put(d, i, ma.d[0], mb.d[0]);
    Pair { a: ma.on, b: mb.on }
}
