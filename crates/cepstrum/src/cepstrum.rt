// From a mel-cepstrum c.
// `unwarp` is no twin of `b2mc`: it reads what it has made, and that what it was given.
ghost use Rattle.std.specs.Prelude.{◌≡◌, ◌++◌, ◌+◌, ◌-◌, ◌≤◌, ◌<◌, length, take, drop};
ghost use Rattle.number.specs.F64.{0f};
ghost use Rattle.vectors.specs.Vectors.{sum_from};
ghost use Rattle.cepstrum.specs.Cepstrum.{unwarped, mc2b_of, onward, pass, passes, freqt_of, c2ir_of};
ghost use Rattle.cepstrum.specs.Weights.{weights_of, weighed_term};

// The coefficients, where alpha is not 0: from the last one down.
fn unwarp(c: &[f64], alpha: f64, b: &mut [f64])
    requires { (1 ≤ length c.now) × (length b.old ≡ length c.now) }
    ensures { b.new ≡ unwarped alpha c.now }
{
    let last = c.len() - 1;
    b[last] = c[last];
    for i in (0..last).rev() {
        b[i] = c[i] - alpha * b[i + 1];
    }
}

// The coefficients.
pub fn mc2b(c: &[f64], alpha: f64, b: &mut [f64])
    requires { (1 ≤ length c.now) × (length b.old ≡ length c.now) }
    ensures { b.new ≡ mc2b_of alpha c.now }
{
    if alpha != 0.0 {
        unwarp(c, alpha, b);
    } else {
        vectors::copy(c, b);
    }
}

// A pass of freqt from its third entry on. `old` and `new` are the entry before it, as it was and as it is.
fn onward_in(g: &mut [f64], alpha: f64, mut old: f64, mut new: f64)
    requires { 2 ≤ length g.old }
    ensures { g.new ≡ take 2 g.old ++ onward alpha old new (drop 2 g.old) }
{
    for x in &mut g[2..] {
        let here = *x;
        new = old + alpha * (here - new);
        *x = new;
        old = here;
    }
}

// A pass of freqt, which takes x in.
fn pass_in(g: &mut [f64], alpha: f64, x: f64)
    requires { 2 ≤ length g.old }
    ensures { g.new ≡ pass alpha x g.old }
{
    let aa = 1.0 - alpha * alpha;
    let first = g[0];
    let second = g[1];
    let new = aa * first + alpha * second;
    g[0] = x + alpha * first;
    g[1] = new;
    onward_in(g, alpha, second, new);
}

// The warped cepstrum, of 576 entries: the passes eight at a time, and then those that are left one by one.
pub fn freqt(c: &[f64], alpha: f64) -> [f64; 576]
    ensures { result ≡ freqt_of alpha 576 c.now }
{
    let mut g = [0.0; 576];
    // By an index, which the edits of both loops change.
    for k in 0..c.len() / 8 {
        wave::eight_in(&mut g, alpha, &c[8 * k..8 * k + 8]);
    }
    for i in c.len() / 8 * 8..c.len() {
        pass_in(&mut g, alpha, c[i]);
    }
    g
}

// k * c[k] for each k.
pub fn weights(c: &[f64; 576]) -> [f64; 576]
    ensures { result ≡ weights_of 576 c.now }
{
    let mut w = [0.0; 576];
    for k in 0..576 {
        w[k] = k as f64 * c[k];
    }
    w
}

// The sum of w[k] * ir[n - k] for k from 1 to n.
fn ir_sum(w: &[f64], ir: &[f64], n: usize) -> f64
    requires { (n < length w.now) × (n < length ir.now) × (n < 576) }
    ensures { result ≡ sum_from (weighed_term w.now ir.now n) 1 n 0f }
{
    let mut d = 0.0;
    for k in 1..n + 1 {
        d += w[k] * ir[n - k];
    }
    d
}

// The impulse response of a cepstrum, both of 576 entries.
pub fn c2ir(c: &[f64; 576]) -> [f64; 576]
    ensures { result ≡ c2ir_of 576 c.now }
{
    let w = weights(c);
    let mut ir = [0.0; 576];
    ir[0] = exponential::exp(c[0]);
    for n in 1..576 {
        ir[n] = ir_sum(&w, &ir, n) / n as f64;
    }
    ir
}
