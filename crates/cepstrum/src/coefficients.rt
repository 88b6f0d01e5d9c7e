// From coefficients b.
// Room is in an array of the largest size: fixed memory.
// How long the slices are is in clauses, since the type of a slice says no length.
ghost use Rattle.std.specs.Prelude.{◌≡◌, ◌≤◌, length};
ghost use Rattle.number.specs.F64.{−◌};
ghost use Rattle.cepstrum.specs.Cepstrum.{b2mc_of, freqt_of, b2en_of};

use crate::cepstrum::{c2ir, freqt};

// The mel-cepstrum.
pub fn b2mc(b: &[f64], alpha: f64, c: &mut [f64])
    requires { (1 ≤ length b.now) × (length c.old ≡ length b.now) }
    ensures { c.new ≡ b2mc_of alpha b.now }
{
    let last = b.len() - 1;
    c[last] = b[last];
    for i in (0..last).rev() {
        c[i] = b[i] + alpha * b[i + 1];
    }
}

// The cepstrum without warping, of 576 entries, with room for the mel-cepstrum.
fn b2c_in(b: &[f64], alpha: f64, c: &mut [f64]) -> [f64; 576]
    requires { (1 ≤ length b.now) × (length c.old ≡ length b.now) }
    ensures { result ≡ freqt_of (− alpha) 576 (b2mc_of alpha b.now) }
{
    b2mc(b, alpha, c);
    freqt(c, -alpha)
}

// The cepstrum without warping, of 576 entries.
pub fn b2c(b: &[f64], alpha: f64) -> [f64; 576]
    requires { (1 ≤ length b.now) × (length b.now ≤ 64) }
    ensures { result ≡ freqt_of (− alpha) 576 (b2mc_of alpha b.now) }
{
    let mut c = [0.0; 64];
    b2c_in(b, alpha, &mut c[0..b.len()])
}

// The energy of the impulse response.
pub fn b2en(b: &[f64], alpha: f64) -> f64
    requires { (1 ≤ length b.now) × (length b.now ≤ 64) }
    ensures { result ≡ b2en_of alpha b.now }
{
    let c = b2c(b, alpha);
    let ir = c2ir(&c);
    vectors::energy(&ir)
}
