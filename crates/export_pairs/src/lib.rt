// What C and Rust reach of generalized cepstra and line spectral pairs, under C names. Each function is the one that it calls, behind a
// test of its lengths.
// C wants numbers: 0 done, 1 a length or a stage that is not taken, 9 outside.
#![tactic(auto)]

ghost use Rattle.std.specs.Prelude.{◌≡◌, [], ◌∷◌, ◌&&◌, ◌+◌, leb, eqb, length};
ghost use Rattle.elementary.specs.Outcome.{inside, ◌then◌};
ghost use Rattle.generalized.specs.Generalized.{gnorm_of, ignorm_of, gc2gc_of};
ghost use Rattle.lattice.specs.Lattice.{lsp2lpc_of};
ghost use Rattle.lsp.specs.Lsp.{lsp2mgc_of, lsp2en_of};
ghost use Rattle.stability.specs.Stability.{stable_of};
ghost use Rattle.postfilter.specs.Pairs.{postfilter_lsp_of};
ghost use Rattle.limits.specs.Limits.{status, after, entries_of, stage_of, generalized_of};

use limits::{entries, general, number, stage};

#[unsafe(no_mangle)]
pub extern "C" fn kipawnore_gnorm(c: &mut [f64], s: u64) -> u64
    ensures value { result ≡ status (generalized_of (length c.old) s) (gnorm_of s c.old) }
    ensures c_after { c.new ≡ after (generalized_of (length c.old) s) c.old (gnorm_of s c.old) }
{
    if !general(c.len(), s) {
        return 1;
    }
    number(generalized::gnorm(c, s))
}

#[unsafe(no_mangle)]
pub extern "C" fn kipawnore_ignorm(c: &mut [f64], s: u64) -> u64
    ensures value { result ≡ status (generalized_of (length c.old) s) (ignorm_of s c.old) }
    ensures c_after { c.new ≡ after (generalized_of (length c.old) s) c.old (ignorm_of s c.old) }
{
    if !general(c.len(), s) {
        return 1;
    }
    number(generalized::ignorm(c, s))
}

// To as many entries as d has, c's or fewer.
#[unsafe(no_mangle)]
pub extern "C" fn kipawnore_gc2gc(c: &[f64], s: u64, d: &mut [f64]) -> u64
    ensures value { result ≡ status (generalized_of (length d.old) s && leb (length d.old) (length c.now)) (inside (gc2gc_of s (length d.old) c.now)) }
    ensures d_after { d.new ≡ after (generalized_of (length d.old) s && leb (length d.old) (length c.now)) d.old (inside (gc2gc_of s (length d.old) c.now)) }
{
    if !general(d.len(), s) {
        return 1;
    }
    if d.len() > c.len() {
        return 1;
    }
    generalized::gc2gc(c, s, d);
    0
}

// lpc has one entry more than lsp.
#[unsafe(no_mangle)]
pub extern "C" fn kipawnore_lsp2lpc(lsp: &[f64], lpc: &mut [f64]) -> u64
    ensures value { result ≡ status (entries_of (length lsp.now) (length lsp.now) && eqb (length lpc.old) (length lsp.now + 1)) (lsp2lpc_of lsp.now) }
    ensures lpc_after { lpc.new ≡ after (entries_of (length lsp.now) (length lsp.now) && eqb (length lpc.old) (length lsp.now + 1)) lpc.old (lsp2lpc_of lsp.now) }
{
    if !entries(lsp.len(), lsp.len()) {
        return 1;
    }
    if lpc.len() != lsp.len() + 1 {
        return 1;
    }
    number(lattice::lsp2lpc(lsp, lpc))
}

#[unsafe(no_mangle)]
pub extern "C" fn kipawnore_lsp2mgc(lsp: &[f64], log: bool, s: u64, mgc: &mut [f64]) -> u64
    ensures value { result ≡ status (entries_of (length lsp.now) (length mgc.old) && stage_of s) (lsp2mgc_of log s lsp.now) }
    ensures mgc_after { mgc.new ≡ after (entries_of (length lsp.now) (length mgc.old) && stage_of s) mgc.old (lsp2mgc_of log s lsp.now) }
{
    if !entries(lsp.len(), mgc.len()) {
        return 1;
    }
    if !stage(s) {
        return 1;
    }
    number(lsp::lsp2mgc(lsp, log, s, mgc))
}

// The energy goes into the one entry of `energy`.
#[unsafe(no_mangle)]
pub extern "C" fn kipawnore_lsp2en(lsp: &[f64], log: bool, s: u64, energy: &mut [f64]) -> u64
    ensures value { result ≡ status (entries_of (length lsp.now) (length lsp.now) && (stage_of s && eqb (length energy.old) 1)) (lsp2en_of log s lsp.now then λ x. inside (x ∷ [])) }
    ensures energy_after { energy.new ≡ after (entries_of (length lsp.now) (length lsp.now) && (stage_of s && eqb (length energy.old) 1)) energy.old (lsp2en_of log s lsp.now then λ x. inside (x ∷ [])) }
{
    if !entries(lsp.len(), lsp.len()) {
        return 1;
    }
    if !stage(s) {
        return 1;
    }
    if energy.len() != 1 {
        return 1;
    }
    let Ok(x) = lsp::lsp2en(lsp, log, s) else {
        return 9;
    };
    energy[0] = x;
    0
}

#[unsafe(no_mangle)]
pub extern "C" fn kipawnore_postfilter_lsp(lsp: &mut [f64], beta: f64, log: bool, s: u64) -> u64
    ensures value { result ≡ status (entries_of (length lsp.old) (length lsp.old) && stage_of s) (postfilter_lsp_of beta log s lsp.old) }
    ensures lsp_after { lsp.new ≡ after (entries_of (length lsp.old) (length lsp.old) && stage_of s) lsp.old (postfilter_lsp_of beta log s lsp.old) }
{
    if !entries(lsp.len(), lsp.len()) {
        return 1;
    }
    if !stage(s) {
        return 1;
    }
    number(postfilter::pairs::postfilter_lsp(lsp, beta, log, s))
}

#[unsafe(no_mangle)]
pub extern "C" fn kipawnore_check_lsp_stability(lsp: &mut [f64]) -> u64
    ensures value { result ≡ status (entries_of (length lsp.old) (length lsp.old)) (inside (stable_of lsp.old)) }
    ensures lsp_after { lsp.new ≡ after (entries_of (length lsp.old) (length lsp.old)) lsp.old (inside (stable_of lsp.old)) }
{
    if !entries(lsp.len(), lsp.len()) {
        return 1;
    }
    stability::check_lsp_stability(lsp);
    0
}
