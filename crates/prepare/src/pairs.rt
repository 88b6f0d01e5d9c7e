// Stages 1 to 8: the spectrum is line spectral pairs.
// Room is in arrays of the largest size: fixed memory. `first` is a flag of the voice, as C has it.
// How long the slices are is in clauses, since the type of a slice says no length.
ghost use Rattle.std.specs.Prelude.{◌≡◌, ◌≤◌, length, OnOk};
ghost use Rattle.elementary.specs.Outcome.{inside, prepared_of};
ghost use Rattle.prepare.specs.Preparing.{start_if, coefficients_of, targets_lsp, prepared_lsp, start_after, targets_after};

use cepstrum::cepstrum::mc2b;
use elementary::answer::Outside;
use generalized::{gamma, gnorm};
use lsp::lsp2mgc;
use postfilter::pairs::postfilter_lsp;
use stability::check_lsp_stability;

// How pairs become coefficients: by which warping and postfilter, with a logarithm of the gain or not, and at which stage.
#[derive(Clone, Copy)]
struct Kind {
    alpha: f64,
    beta: f64,
    log: bool,
    s: u64,

    ghost in_range: { s ≤ 8 },
}

// The filter's coefficients of line spectral pairs, with room for the mel-generalized cepstrum.
fn coefficients(lsp: &[f64], kind: Kind, mgc: &mut [f64], b: &mut [f64]) -> Result<(), Outside>
    requires { (1 ≤ length lsp.now) × (length lsp.now ≤ 64) × (length mgc.old ≡ length lsp.now) × (length b.old ≡ length lsp.now) }
    ensures value { result ≡ prepared_of (coefficients_of kind.alpha kind.log kind.s lsp.now) }
    ensures b_after { OnOk result (inside b.new ≡ coefficients_of kind.alpha kind.log kind.s lsp.now) }
{
    lsp2mgc(lsp, kind.log, kind.s, mgc)?;
    mc2b(mgc, kind.alpha, b);
    gnorm(b, kind.s)?;
    vectors::multiply_from(b, 1, gamma(kind.s));
    Ok(())
}

// The targets, with room for the pairs that are postfiltered and repaired.
fn targets_in(
    spectrum: &[f64],
    kind: Kind,
    lsp: &mut [f64],
    mgc: &mut [f64],
    b: &mut [f64],
) -> Result<(), Outside>
    requires in_bounds { (2 ≤ length spectrum.now) × (length spectrum.now ≤ 64) × (length lsp.old ≡ length spectrum.now) }
    requires mgc_len { (length mgc.old ≡ length spectrum.now) × (length b.old ≡ length spectrum.now) }
    ensures value { result ≡ prepared_of (targets_lsp kind.alpha kind.beta kind.log kind.s spectrum.now) }
    ensures b_after { OnOk result (inside b.new ≡ targets_lsp kind.alpha kind.beta kind.log kind.s spectrum.now) }
{
    vectors::copy(spectrum, lsp);
    postfilter_lsp(lsp, kind.beta, kind.log, kind.s)?;
    check_lsp_stability(lsp);
    coefficients(lsp, kind, mgc, b)
}

// The start coefficients into b, where the frame is the first.
fn start_in(
    spectrum: &[f64],
    kind: Kind,
    first: bool,
    mgc: &mut [f64],
    b: &mut [f64],
) -> Result<(), Outside>
    requires { (1 ≤ length spectrum.now) × (length spectrum.now ≤ 64) × (length mgc.old ≡ length spectrum.now) × (length b.old ≡ length spectrum.now) }
    ensures value { result ≡ prepared_of (start_if first (coefficients_of kind.alpha kind.log kind.s spectrum.now) b.old) }
    ensures b_after { OnOk result (inside b.new ≡ start_if first (coefficients_of kind.alpha kind.log kind.s spectrum.now) b.old) }
{
    if !first {
        return Ok(());
    }
    coefficients(spectrum, kind, mgc, b)
}

// Both, with room for the pairs, the mel-generalized cepstrum, and both results.
fn prepare_in(
    spectrum: &[f64],
    kind: Kind,
    first: bool,
    lsp: &mut [f64],
    mgc: &mut [f64],
    b: &mut [f64],
    t: &mut [f64],
    start: &mut [f64],
    targets: &mut [f64],
) -> Result<(), Outside>
    requires in_bounds { (2 ≤ length spectrum.now) × (length spectrum.now ≤ 64) × (length lsp.old ≡ length spectrum.now) }
    requires mgc_len { (length mgc.old ≡ length spectrum.now) × (length b.old ≡ length spectrum.now) × (length t.old ≡ length spectrum.now) }
    requires start_len { (length start.old ≡ length spectrum.now) × (length targets.old ≡ length spectrum.now) }
    ensures value { result ≡ prepared_of (prepared_lsp kind.alpha kind.beta kind.log kind.s first start.old spectrum.now) }
    ensures start_after { start.new ≡ start_after start.old (prepared_lsp kind.alpha kind.beta kind.log kind.s first start.old spectrum.now) }
    ensures targets_after { targets.new ≡ targets_after targets.old (prepared_lsp kind.alpha kind.beta kind.log kind.s first start.old spectrum.now) }
{
    vectors::copy(start, b);
    start_in(spectrum, kind, first, mgc, b)?;
    targets_in(spectrum, kind, lsp, mgc, t)?;
    vectors::copy(b, start);
    vectors::copy(t, targets);
    Ok(())
}

// The targets of a frame, and the start coefficients where it is the first. Where a function is outside, both stay.
pub fn prepare_lsp(
    spectrum: &[f64],
    alpha: f64,
    beta: f64,
    log: bool,
    s: u64,
    first: bool,
    start: &mut [f64],
    targets: &mut [f64],
) -> Result<(), Outside>
    requires in_bounds { (2 ≤ length spectrum.now) × (length spectrum.now ≤ 64) × (s ≤ 8) }
    requires start_len { (length start.old ≡ length spectrum.now) × (length targets.old ≡ length spectrum.now) }
    ensures value { result ≡ prepared_of (prepared_lsp alpha beta log s first start.old spectrum.now) }
    ensures start_after { start.new ≡ start_after start.old (prepared_lsp alpha beta log s first start.old spectrum.now) }
    ensures targets_after { targets.new ≡ targets_after targets.old (prepared_lsp alpha beta log s first start.old spectrum.now) }
{
    let n = spectrum.len();
    let kind = Kind {
        alpha,
        beta,
        log,
        s,
    };
    let mut lsp = [0.0; 64];
    let mut mgc = [0.0; 64];
    let mut b = [0.0; 64];
    let mut t = [0.0; 64];
    prepare_in(
        spectrum,
        kind,
        first,
        &mut lsp[0..n],
        &mut mgc[0..n],
        &mut b[0..n],
        &mut t[0..n],
        start,
        targets,
    )
}
