// Line spectral pairs: to the mel-generalized cepstrum, by way of linear prediction (`lattice`), and their energy.
// Room is in arrays of the largest size: fixed memory. That s is up to 8 and how long a slice is are clauses: a type around one number, or around a slice that is
// lent, is no plainer.
#![tactic(auto)]

ghost use Rattle.std.specs.Prelude.{◌≡◌, ◌+◌, ◌≤◌, length};
ghost use Rattle.elementary.specs.Outcome.{prepared_of, or_else, answer_of};
ghost use Rattle.lsp.specs.Lsp.{gain_of, lsp2mgc_of, lsp2en_of};

use elementary::answer::Outside;
use lattice::lsp2lpc;

// The gain, of entry 0.
fn gain(x: f64, log: bool) -> f64
    ensures { result ≡ gain_of log x }
{
    if log { exponential::exp(x) } else { x }
}

// The mel-generalized cepstrum, with room for linear prediction.
fn mgc_in(lsp: &[f64], log: bool, s: u64, lpc: &mut [f64], mgc: &mut [f64]) -> Result<(), Outside>
    requires { (1 ≤ length lsp.now) × (length lsp.now ≤ 64) × (length lpc.old ≡ length lsp.now + 1) × (length mgc.old ≡ length lsp.now) × (s ≤ 8) }
    ensures value { result ≡ prepared_of (lsp2mgc_of log s lsp.now) }
    ensures mgc_after { mgc.new ≡ or_else mgc.old (lsp2mgc_of log s lsp.now) }
{
    lsp2lpc(lsp, lpc)?;
    lpc[0] = gain(lsp[0], log);
    generalized::ignorm(lpc, s)?;
    vectors::multiply_from(lpc, 1, -(s as f64));
    generalized::mgc2mgc(lpc, s, mgc)
}

// The mel-generalized cepstrum. Where a cosine or a power is outside, it stays.
pub fn lsp2mgc(lsp: &[f64], log: bool, s: u64, mgc: &mut [f64]) -> Result<(), Outside>
    requires { (1 ≤ length lsp.now) × (length lsp.now ≤ 64) × (length mgc.old ≡ length lsp.now) × (s ≤ 8) }
    ensures value { result ≡ prepared_of (lsp2mgc_of log s lsp.now) }
    ensures mgc_after { mgc.new ≡ or_else mgc.old (lsp2mgc_of log s lsp.now) }
{
    let mut lpc = [0.0; 65];
    mgc_in(lsp, log, s, &mut lpc[0..lsp.len() + 1], mgc)
}

// The energy, with room for the mel-generalized cepstrum.
fn energy_in(lsp: &[f64], log: bool, s: u64, mgc: &mut [f64]) -> Result<f64, Outside>
    requires { (1 ≤ length lsp.now) × (length lsp.now ≤ 64) × (length mgc.old ≡ length lsp.now) × (s ≤ 8) }
    ensures { result ≡ answer_of (lsp2en_of log s lsp.now) }
{
    lsp2mgc(lsp, log, s, mgc)?;
    Ok(vectors::energy(mgc))
}

// The energy of the mel-generalized cepstrum.
pub fn lsp2en(lsp: &[f64], log: bool, s: u64) -> Result<f64, Outside>
    requires { (1 ≤ length lsp.now) × (length lsp.now ≤ 64) × (s ≤ 8) }
    ensures { result ≡ answer_of (lsp2en_of log s lsp.now) }
{
    let mut mgc = [0.0; 64];
    energy_in(lsp, log, s, &mut mgc[0..lsp.len()])
}
