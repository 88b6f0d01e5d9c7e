// The filter of stage 0, mlsa.rs: two parts of five rows each, weighed by the constants of a Padé approximation. The lists are lent one by one, as the
// function under its C name has them, which may be shorter than the filter's own: a struct of `&mut` would want a clause for each reference.
#![tactic(auto)]

ghost use Rattle.std.specs.Prelude.{◌≡◌, List, Float, ◌*◌, ◌≤◌, ◌<◌, length};
ghost use Rattle.number.specs.F64.{0f};
ghost use Rattle.mlsa.specs.Mlsa.{part, weighed, first_row, passed, ended, df1_of, df2_of, filter, df_of, fresh_filter};
ghost use Rattle.mlsa.specs.Laid.{flat, answered};

use lanes::five;
use lanes::five::Five;

pub mod layout;

// The filter's taps: those of the first part with the answers of its rows, six rows of taps of the second part, one after the
// other, with the answers of its rows. With fewer than 64 coefficients the rows are shorter, and the rest is not used: fixed memory, as C has it.
#[repr(C)]
#[derive(Clone, Copy)]
pub struct MelLogSpectrumApproximation {
    pub d11: [f64; 6],
    pub d12: [f64; 6],
    pub d21: [f64; 384],
    pub d22: [f64; 6],
}

impl MelLogSpectrumApproximation {
    pub const PPADE: [f64; 6] = [
        1.0,
        0.4999391,
        0.1107098,
        0.01369984,
        0.0009564853,
        0.00003041721,
    ];

    // A fresh filter.
    pub fn new() -> Self
        ensures { result ≡ fresh_filter }
    {
        Self {
            d11: [0.0; 6],
            d12: [0.0; 6],
            d21: [0.0; 384],
            d22: [0.0; 6],
        }
    }
}

// The sample as the rows change it, and the sum of what they come to.
#[derive(Clone, Copy)]
pub struct Sums {
    pub x: f64,
    pub out: f64,
}

impl Sums {
    // The sums with the answer of row i.
    fn weigh(self, i: usize, y: f64) -> Self
        requires { i < 6 }
        ensures { result ≡ weighed i y self }
    {
        let v = y * MelLogSpectrumApproximation::PPADE[i];
        let turned = if i % 2 == 1 { v } else { -v };
        Self {
            x: self.x + turned,
            out: self.out + v,
        }
    }
}

// Row i of the first part.
fn first_row(d11: &mut [f64], d12: &mut [f64], i: usize, s: Sums, alpha: f64, c: &[f64]) -> Sums
    requires { (1 ≤ i) × (i < 6) × (length d11.old ≡ 6) × (length d12.old ≡ 6) × (1 < length c.now) }
    ensures { part d11.new d12.new result ≡ first_row alpha c.now i (part d11.old d12.old s) }
{
    let tap = (1.0 - alpha * alpha) * d12[i - 1] + alpha * d11[i];
    let y = tap * c[1];
    d11[i] = tap;
    d12[i] = y;
    s.weigh(i, y)
}

// The first part, its rows from 5 down to 1.
fn df1(d11: &mut [f64], d12: &mut [f64], x: f64, alpha: f64, c: &[f64]) -> f64
    requires { (length d11.old ≡ 6) × (length d12.old ≡ 6) × (1 < length c.now) }
    ensures { passed d11.new d12.new result ≡ df1_of alpha c.now d11.old d12.old x }
{
    let mut s = Sums { x, out: 0.0 };
    for i in (1..6).rev() {
        s = first_row(d11, d12, i, s, alpha, c);
    }
    d12[0] = s.x;
    s.x + s.out
}

// The answers of rows 5 to 1, weighed in this order, and the sample that the second part passes on.
fn answer(d22: &mut [f64], y: Five<f64>, x: f64) -> f64
    requires { length d22.old ≡ 6 }
    ensures { (l : List Float) → passed l d22.new result ≡ ended (answered y (part l d22.old (record { x = x; out = 0f }))) }
{
    let begun = Sums { x, out: 0.0 };
    let s = begun
        .weigh(5, y.last)
        .weigh(4, y.second.b)
        .weigh(3, y.second.a)
        .weigh(2, y.first.b)
        .weigh(1, y.first.a);
    d22[5] = y.last;
    d22[4] = y.second.b;
    d22[3] = y.second.a;
    d22[2] = y.first.b;
    d22[1] = y.first.a;
    d22[0] = s.x;
    s.x + s.out
}

// The second part, with all rows at once: each reads the answer of the row before it as it was. The taps of row 5 are row 4 of d21, behind those that
// are laid side by side.
fn df2_laid(
    first: &mut [f64],
    second: &mut [f64],
    d21: &mut [f64],
    d22: &mut [f64],
    x: f64,
    alpha: f64,
    c: &[f64],
) -> f64
    requires c_in_bounds { (2 * length c.now ≤ length first.old) × (2 * length c.now ≤ length second.old) }
    requires d22_len { (length d22.old ≡ 6) × (2 ≤ length c.now) × (6 * length c.now ≤ length d21.old) }
    ensures { passed (flat (length c.now) first.new second.new d21.new) d22.new result
        ≡ df2_of alpha c.now (flat (length c.now) first.old second.old d21.old) d22.old x }
{
    let heads = Five {
        first: lanes::at(d22, 0),
        second: lanes::at(d22, 1),
        last: d22[4],
    };
    let from = 4 * c.len();
    let fifth = &mut d21[from..from + c.len()];
    let y = five::fir(first, second, fifth, heads, alpha, c);
    answer(d22, y, x)
}

// The sample after both parts, with the first four rows of d21 laid side by side in two pairs.
pub fn df_laid(
    d11: &mut [f64],
    d12: &mut [f64],
    first: &mut [f64],
    second: &mut [f64],
    d21: &mut [f64],
    d22: &mut [f64],
    x: f64,
    alpha: f64,
    c: &[f64],
) -> f64
    requires d11_len { (length d11.old ≡ 6) × (length d12.old ≡ 6) × (length d22.old ≡ 6) }
    requires c_in_bounds { (2 * length c.now ≤ length first.old) × (2 * length c.now ≤ length second.old) × (2 ≤ length c.now) × (6 * length c.now ≤ length d21.old) }
    ensures { record { sample = result; state = filter d11.new d12.new (flat (length c.now) first.new second.new d21.new) d22.new }
        ≡ df_of alpha c.now (filter d11.old d12.old (flat (length c.now) first.old second.old d21.old) d22.old) x }
{
    let y = df1(d11, d12, x, alpha, c);
    df2_laid(first, second, d21, d22, y, alpha, c)
}
