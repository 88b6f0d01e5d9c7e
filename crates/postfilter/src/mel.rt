// The postfilter of a mel-cepstrum.
// Room is in arrays of the largest size: fixed memory.
ghost use Rattle.std.specs.Prelude.{◌≡◌, ◌≤◌, ◌<◌, length};
ghost use Rattle.elementary.specs.Outcome.{prepared_of, or_else};
ghost use Rattle.postfilter.specs.Mel.{sharpened_of, filtered_mcp, postfilter_mcp_of};

use crate::acting;
use cepstrum::cepstrum::mc2b;
use cepstrum::coefficients::b2mc;
use elementary::answer::Outside;
use energies::b2en_both;

// Sharpens coefficients.
fn sharpen(b: &mut [f64], alpha: f64, beta: f64)
    requires { 2 < length b.old }
    ensures { b.new ≡ sharpened_of alpha beta b.old }
{
    b[1] -= beta * alpha * b[2];
    vectors::multiply_from(b, 2, 1.0 + beta);
}

// The postfilter where it acts, with room for the coefficients as they are and sharpened.
fn filter_in(
    c: &mut [f64],
    alpha: f64,
    beta: f64,
    b: &mut [f64],
    t: &mut [f64],
) -> Result<(), Outside>
    requires { (2 < length c.old) × (length c.old ≤ 64) × (length b.old ≡ length c.old) × (length t.old ≡ length c.old) }
    ensures value { result ≡ prepared_of (filtered_mcp alpha beta c.old) }
    ensures c_after { c.new ≡ or_else c.old (filtered_mcp alpha beta c.old) }
{
    mc2b(c, alpha, b);
    vectors::copy(b, t);
    sharpen(t, alpha, beta);
    let (e1, e2) = b2en_both(b, t, alpha);
    let y = logarithm::ln(e1 / e2)?;
    t[0] += y / 2.0;
    b2mc(t, alpha, c);
    Ok(())
}

// The postfilter. Where ln is outside, c stays.
pub fn postfilter_mcp(c: &mut [f64], alpha: f64, beta: f64) -> Result<(), Outside>
    requires { length c.old ≤ 64 }
    ensures value { result ≡ prepared_of (postfilter_mcp_of alpha beta c.old) }
    ensures c_after { c.new ≡ or_else c.old (postfilter_mcp_of alpha beta c.old) }
{
    let n = c.len();
    if !acting(beta, n) {
        return Ok(());
    }
    let mut b = [0.0; 64];
    let mut t = [0.0; 64];
    filter_in(c, alpha, beta, &mut b[0..n], &mut t[0..n])
}
