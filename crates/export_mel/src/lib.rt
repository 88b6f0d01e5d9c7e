// What C and Rust reach of mel-cepstra, under C names. Each function is the one that it calls, behind a test of its lengths.
// C wants numbers: 0 done, 1 a length or a stage that is not taken, 9 outside.
#![tactic(auto)]

ghost use Rattle.std.specs.Prelude.{◌≡◌, [], ◌∷◌, ◌&&◌, eqb, length};
ghost use Rattle.elementary.specs.Outcome.{inside};
ghost use Rattle.cepstrum.specs.Cepstrum.{mc2b_of, b2mc_of, freqt_of, c2ir_of, b2en_of};
ghost use Rattle.postfilter.specs.Mel.{postfilter_mcp_of};
ghost use Rattle.limits.specs.Limits.{status, after, entries_of};

use limits::{entries, number};

#[unsafe(no_mangle)]
pub extern "C" fn kipawnore_mc2b(c: &[f64], alpha: f64, b: &mut [f64]) -> u64
    ensures value { result ≡ status (entries_of (length c.now) (length b.old)) (inside (mc2b_of alpha c.now)) }
    ensures b_after { b.new ≡ after (entries_of (length c.now) (length b.old)) b.old (inside (mc2b_of alpha c.now)) }
{
    if !entries(c.len(), b.len()) {
        return 1;
    }
    cepstrum::cepstrum::mc2b(c, alpha, b);
    0
}

#[unsafe(no_mangle)]
pub extern "C" fn kipawnore_b2mc(b: &[f64], alpha: f64, c: &mut [f64]) -> u64
    ensures value { result ≡ status (entries_of (length b.now) (length c.old)) (inside (b2mc_of alpha b.now)) }
    ensures c_after { c.new ≡ after (entries_of (length b.now) (length c.old)) c.old (inside (b2mc_of alpha b.now)) }
{
    if !entries(b.len(), c.len()) {
        return 1;
    }
    cepstrum::coefficients::b2mc(b, alpha, c);
    0
}

// To 576 entries.
#[unsafe(no_mangle)]
pub extern "C" fn kipawnore_freqt(c: &[f64], alpha: f64, warped: &mut [f64]) -> u64
    ensures value { result ≡ status (entries_of (length c.now) (length c.now) && eqb (length warped.old) 576) (inside (freqt_of alpha 576 c.now)) }
    ensures warped_after { warped.new ≡ after (entries_of (length c.now) (length c.now) && eqb (length warped.old) 576) warped.old (inside (freqt_of alpha 576 c.now)) }
{
    if !entries(c.len(), c.len()) {
        return 1;
    }
    if warped.len() != 576 {
        return 1;
    }
    let made = cepstrum::cepstrum::freqt(c, alpha);
    vectors::copy(&made, warped);
    0
}

// Both of 576 entries.
#[unsafe(no_mangle)]
pub extern "C" fn kipawnore_c2ir(c: &[f64], ir: &mut [f64]) -> u64
    ensures value { result ≡ status (eqb (length c.now) 576 && eqb (length ir.old) 576) (inside (c2ir_of 576 c.now)) }
    ensures ir_after { ir.new ≡ after (eqb (length c.now) 576 && eqb (length ir.old) 576) ir.old (inside (c2ir_of 576 c.now)) }
{
    let Some(from) = c.as_array::<576>() else {
        return 1;
    };
    if ir.len() != 576 {
        return 1;
    }
    let made = cepstrum::cepstrum::c2ir(from);
    vectors::copy(&made, ir);
    0
}

// The energy goes into the one entry of `energy`.
#[unsafe(no_mangle)]
pub extern "C" fn kipawnore_b2en(b: &[f64], alpha: f64, energy: &mut [f64]) -> u64
    ensures value { result ≡ status (entries_of (length b.now) (length b.now) && eqb (length energy.old) 1) (inside (b2en_of alpha b.now ∷ [])) }
    ensures energy_after { energy.new ≡ after (entries_of (length b.now) (length b.now) && eqb (length energy.old) 1) energy.old (inside (b2en_of alpha b.now ∷ [])) }
{
    if !entries(b.len(), b.len()) {
        return 1;
    }
    if energy.len() != 1 {
        return 1;
    }
    energy[0] = cepstrum::coefficients::b2en(b, alpha);
    0
}

#[unsafe(no_mangle)]
pub extern "C" fn kipawnore_postfilter_mcp(c: &mut [f64], alpha: f64, beta: f64) -> u64
    ensures value { result ≡ status (entries_of (length c.old) (length c.old)) (postfilter_mcp_of alpha beta c.old) }
    ensures c_after { c.new ≡ after (entries_of (length c.old) (length c.old)) c.old (postfilter_mcp_of alpha beta c.old) }
{
    if !entries(c.len(), c.len()) {
        return 1;
    }
    number(postfilter::mel::postfilter_mcp(c, alpha, beta))
}
