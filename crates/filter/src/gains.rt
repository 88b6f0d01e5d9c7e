// The gains of stage 0: each sample, where it is not 0, times exp(c0), with c0 on by its increment after each. In blocks: the parts of all exps first,
// and then their sums over arrays, which the compiler makes vectors of.
ghost use Rattle.std.specs.Prelude.{◌≡◌, [], ◌∷◌, ◌≤◌, length, Float};
ghost use Rattle.number.specs.F64.{◌⊗◌};
ghost use Rattle.exponential.specs.Exp.{sum_at, exp_of};
ghost use Rattle.history.specs.Through.{passage, through};
ghost use Rattle.filter.specs.Zero.{gained, gain_of, on_by, Prepared};

// The sample times exp(c0), which is given by its parts, where the sample is not 0.
fn gain(x: f64, rest: f64, power: f64) -> f64
    ensures { (c0 : Float) → sum_at rest ⊗ power ≡ exp_of c0 → result ≡ gained (c0 ∷ []) x }
{
    let loud = x * exponential::joined(rest, power);
    if x != 0.0 { loud } else { x }
}

// The parts of the first n exps, and c0 after them. The arrays are of fixed size, for want of a heap.
fn prepare(rests: &mut [f64], powers: &mut [f64], n: usize, start: f64, increment: f64) -> f64
    requires { (n ≤ length rests.old) × (n ≤ length powers.old) }
    ensures { (result ≡ on_by increment start n) × Prepared increment start n rests.new powers.new }
{
    let mut c0 = start;
    for i in 0..n {
        let p = exponential::split(c0);
        rests[i] = p.rest;
        powers[i] = p.power;
        c0 = c0 + increment;
    }
    c0
}

// The samples with their gains, from the parts of each exp.
fn multiply(samples: &mut [f64], rests: &[f64], powers: &[f64])
    requires { (length samples.old ≤ length rests.now) × (length samples.old ≤ length powers.now) }
    ensures { (increment start : Float) → Prepared increment start (length samples.old) rests.now powers.now
        → passage samples.new (on_by increment start (length samples.old)) ≡ through (gain_of increment) start samples.old }
{
    for i in 0..samples.len() {
        let x = samples[i];
        let loud = gain(x, rests[i], powers[i]);
        samples[i] = loud;
    }
}

// The gains of a block, and c0 after it.
fn block(samples: &mut [f64], start: f64, increment: f64) -> f64
    requires { length samples.old ≤ 128 }
    ensures { passage samples.new result ≡ through (gain_of increment) start samples.old }
{
    let mut rests = [0.0; 128];
    let mut powers = [0.0; 128];
    let c0 = prepare(&mut rests, &mut powers, samples.len(), start, increment);
    multiply(samples, &rests, &powers);
    c0
}

// The gains of all samples, with c0 from `start` on. By step_by: of `chunks_mut` a proof knows no element after the loop.
pub(crate) fn gains(samples: &mut [f64], start: f64, increment: f64)
    ensures { samples.new ≡ (through (gain_of increment) start samples.old).made }
{
    let mut c0 = start;
    for i in (0..samples.len()).step_by(128) {
        let n = (samples.len() - i).min(128);
        c0 = block(&mut samples[i..i + n], c0, increment);
    }
}
