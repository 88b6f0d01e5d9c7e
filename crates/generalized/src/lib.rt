// The generalized cepstrum of a stage s from 1 to 8, for which gamma is -1 / s: with and without its gain normalised.
// That s is up to 8 and how long a slice is are clauses: a type around one number, or around a slice that is lent, is no plainer.
#![tactic(auto)]

ghost use Rattle.std.specs.Prelude.{◌≡◌, ◌-◌, ◌≤◌, ◌<◌, length};
ghost use Rattle.elementary.specs.Outcome.{prepared_of, or_else};
ghost use Rattle.generalized.specs.Generalized.{gamma_of, gnorm_of, ignormed_by, ignorm_of, gc2gc_entry, gc2gc_of, mgc2mgc_of};

use elementary::answer::Outside;

// -1 / s.
pub fn gamma(s: u64) -> f64
    requires { s ≤ 8 }
    ensures { result ≡ gamma_of s }
{
    -1.0 / s as f64
}

// Normalises the gain. Where the power is outside, c stays.
pub fn gnorm(c: &mut [f64], s: u64) -> Result<(), Outside>
    requires { (1 ≤ length c.old) × (s ≤ 8) }
    ensures value { result ≡ prepared_of (gnorm_of s c.old) }
    ensures c_after { c.new ≡ or_else c.old (gnorm_of s c.old) }
{
    let k = 1.0 + gamma(s) * c[0];
    let gain = power::inverse_power(k, s)?;
    vectors::divide_from(c, 1, k);
    c[0] = gain;
    Ok(())
}

// Takes the normalisation back, by a gain k that is known.
fn ignorm_by(c: &mut [f64], s: u64, k: f64)
    requires { (1 ≤ length c.old) × (s ≤ 8) }
    ensures { c.new ≡ ignormed_by s k c.old }
{
    vectors::multiply_from(c, 1, k);
    c[0] = (k - 1.0) / gamma(s);
}

// Takes the normalisation back. Where the power is outside, c stays.
pub fn ignorm(c: &mut [f64], s: u64) -> Result<(), Outside>
    requires { (1 ≤ length c.old) × (s ≤ 8) }
    ensures value { result ≡ prepared_of (ignorm_of s c.old) }
    ensures c_after { c.new ≡ or_else c.old (ignorm_of s c.old) }
{
    let k = power::inverse_root(c[0], s)?;
    ignorm_by(c, s, k);
    Ok(())
}

// Entry i of gc2gc, from the entries before it in d.
fn gc2gc_entry(c: &[f64], d: &[f64], gamma: f64, i: usize) -> f64
    requires { (1 ≤ i) × (i < length c.now) × (i < length d.now) × (i ≤ 64) }
    ensures { result ≡ gc2gc_entry gamma c.now d.now i }
{
    let mut ss1 = 0.0;
    let mut ss2 = 0.0;
    for k in 1..i {
        let mk = i - k;
        let cc = c[k] * d[mk];
        ss1 += mk as f64 * cc;
        ss2 += k as f64 * cc;
    }
    c[i] + (gamma * ss2 - gamma * ss1) / i as f64
}

// The cepstrum c to as many entries as d has, both of one gamma.
pub fn gc2gc(c: &[f64], s: u64, d: &mut [f64])
    requires { (1 ≤ length d.old) × (length d.old ≤ length c.now) × (length d.old ≤ 65) × (s ≤ 8) }
    ensures { d.new ≡ gc2gc_of s (length d.old) c.now }
{
    let gamma = gamma(s);
    d[0] = c[0];
    for i in 1..d.len() {
        d[i] = gc2gc_entry(c, d, gamma, i);
    }
}

// Normalises c, and makes d of it. The gain of d is that of c, so that d is written only where both powers are inside.
pub fn mgc2mgc(c: &mut [f64], s: u64, d: &mut [f64]) -> Result<(), Outside>
    requires { (1 ≤ length d.old) × (length d.old ≤ length c.old) × (length d.old ≤ 65) × (s ≤ 8) }
    ensures value { result ≡ prepared_of (mgc2mgc_of s (length d.old) c.old) }
    ensures c_after { c.new ≡ or_else c.old (gnorm_of s c.old) }
    ensures d_after { d.new ≡ or_else d.old (mgc2mgc_of s (length d.old) c.old) }
{
    // No `?`: an edit changes what is returned here.
    let Ok(()) = gnorm(c, s) else {
        return Err(Outside);
    };
    let k = power::inverse_root(c[0], s)?;
    gc2gc(c, s, d);
    ignorm_by(d, s, k);
    Ok(())
}
