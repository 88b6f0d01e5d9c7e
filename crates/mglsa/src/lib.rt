// The filter of the stages from 1 on, mglsa.rs: a row of taps for each stage.
// How many taps and rows there are is in clauses, since the lists are lent and the type of a slice says no length.
#![tactic(auto)]

mod pair;

ghost use Rattle.std.specs.Prelude.{◌≡◌, ◌+◌, ◌*◌, ◌≤◌, ◌<◌, length};
ghost use Rattle.mglsa.specs.Mglsa.{passed, warp_at, warped, pushed, dff_of, stage_of, turned, df_of, fresh_rows};

use crate::pair::two_stages;

// The filter's taps, at most eight rows, one after the other. With fewer than 64 coefficients the rows are shorter, and the rest is
// not used: fixed memory, as C has it.
#[repr(C)]
#[derive(Clone, Copy)]
pub struct MelGeneralizedLogSpectrumApproximation {
    pub d: [f64; 512],
}

impl MelGeneralizedLogSpectrumApproximation {
    // A fresh filter.
    pub fn new() -> Self
        ensures { result ≡ fresh_rows }
    {
        Self { d: [0.0; 512] }
    }
}

// Tap i between its neighbours, and the sum with it.
fn warp_at(d: &mut [f64], alpha: f64, c: &[f64], i: usize, y: f64) -> f64
    requires { (1 ≤ i) × (i < length d.old) × (i + 1 < length d.old) × (i + 1 < length c.now) }
    ensures { passed d.new result ≡ warp_at alpha c.now i (passed d.old y) }
{
    let tap = d[i] + alpha * (d[i + 1] - d[i - 1]);
    d[i] = tap;
    y + tap * c[i + 1]
}

// All taps but the first and the last, and the sum.
fn warp(d: &mut [f64], alpha: f64, c: &[f64]) -> f64
    requires { (2 ≤ length d.old) × (length c.now ≡ length d.old) }
    ensures { passed d.new result ≡ warped alpha c.now d.old }
{
    let mut y = d[0] * c[1];
    for i in 1..d.len() - 1 {
        y = warp_at(d, alpha, c, i, y);
    }
    y
}

// Each tap one place on, and `first` in front.
fn push(d: &mut [f64], first: f64)
    ensures { d.new ≡ pushed first d.old }
{
    let mut before = first;
    for tap in d.iter_mut() {
        let here = *tap;
        *tap = before;
        before = here;
    }
}

// One stage.
fn dff(d: &mut [f64], x: f64, alpha: f64, c: &[f64]) -> f64
    requires { (2 ≤ length d.old) × (length c.now ≡ length d.old) }
    ensures { passed d.new result ≡ dff_of alpha c.now (passed d.old x) }
{
    let y = warp(d, alpha, c);
    let out = x - y;
    let first = alpha * d[0] + (1.0 - alpha * alpha) * out;
    push(d, first);
    out
}

// Stage i, on its row.
fn stage(d: &mut [f64], i: usize, x: f64, alpha: f64, c: &[f64]) -> f64
    requires { (2 ≤ length c.now) × (i * length c.now + length c.now ≤ length d.old) }
    ensures { passed d.new result ≡ stage_of alpha c.now i (passed d.old x) }
{
    let n = c.len();
    let from = i * n;
    dff(&mut d[from..from + n], x, alpha, c)
}

// The sample after all stages, whose rows are lent: two at a time, and the last one of an odd number.
pub fn df(d: &mut [f64], stages: usize, x: f64, alpha: f64, c: &[f64]) -> f64
    requires { (2 ≤ length c.now) × (stages * length c.now ≤ length d.old) }
    ensures { turned (passed d.new result) ≡ df_of alpha stages c.now d.old x }
{
    let mut out = x;
    for two in 0..stages / 2 {
        out = two_stages(d, 2 * two, out, alpha, c);
    }
    if stages % 2 == 1 {
        return stage(d, stages - 1, out, alpha, c);
    }
    out
}
