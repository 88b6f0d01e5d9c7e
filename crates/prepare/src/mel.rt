// Stage 0: the spectrum is a mel-cepstrum.
// Room is in an array of the largest size: fixed memory. `first` is a flag of the voice, as C has it.
// How long the slices are is in clauses, since the type of a slice says no length.
ghost use Rattle.std.specs.Prelude.{◌≡◌, cond, ◌≤◌, length};
ghost use Rattle.elementary.specs.Outcome.{prepared_of};
ghost use Rattle.cepstrum.specs.Cepstrum.{mc2b_of};
ghost use Rattle.prepare.specs.Preparing.{prepared_mcp, start_after, targets_after};

use cepstrum::cepstrum::mc2b;
use elementary::answer::Outside;
use postfilter::mel::postfilter_mcp;

// The start coefficients, where the frame is the first.
fn start_in(spectrum: &[f64], alpha: f64, first: bool, start: &mut [f64])
    requires { (1 ≤ length spectrum.now) × (length start.old ≡ length spectrum.now) }
    ensures { start.new ≡ cond first (mc2b_of alpha spectrum.now) start.old }
{
    if first {
        mc2b(spectrum, alpha, start);
    }
}

// Both, with room for the postfiltered cepstrum.
fn prepare_in(
    spectrum: &[f64],
    alpha: f64,
    beta: f64,
    first: bool,
    c: &mut [f64],
    start: &mut [f64],
    targets: &mut [f64],
) -> Result<(), Outside>
    requires in_bounds { (1 ≤ length spectrum.now) × (length spectrum.now ≤ 64) × (length c.old ≡ length spectrum.now) }
    requires start_len { (length start.old ≡ length spectrum.now) × (length targets.old ≡ length spectrum.now) }
    ensures value { result ≡ prepared_of (prepared_mcp alpha beta first start.old spectrum.now) }
    ensures start_after { start.new ≡ start_after start.old (prepared_mcp alpha beta first start.old spectrum.now) }
    ensures targets_after { targets.new ≡ targets_after targets.old (prepared_mcp alpha beta first start.old spectrum.now) }
{
    vectors::copy(spectrum, c);
    postfilter_mcp(c, alpha, beta)?;
    start_in(spectrum, alpha, first, start);
    mc2b(c, alpha, targets);
    Ok(())
}

// The targets of a frame, and the start coefficients where it is the first. Where the postfilter is outside, both stay.
pub fn prepare_mcp(
    spectrum: &[f64],
    alpha: f64,
    beta: f64,
    first: bool,
    start: &mut [f64],
    targets: &mut [f64],
) -> Result<(), Outside>
    requires in_bounds { (1 ≤ length spectrum.now) × (length spectrum.now ≤ 64) }
    requires start_len { (length start.old ≡ length spectrum.now) × (length targets.old ≡ length spectrum.now) }
    ensures value { result ≡ prepared_of (prepared_mcp alpha beta first start.old spectrum.now) }
    ensures start_after { start.new ≡ start_after start.old (prepared_mcp alpha beta first start.old spectrum.now) }
    ensures targets_after { targets.new ≡ targets_after targets.old (prepared_mcp alpha beta first start.old spectrum.now) }
{
    let mut c = [0.0; 64];
    prepare_in(
        spectrum,
        alpha,
        beta,
        first,
        &mut c[0..spectrum.len()],
        start,
        targets,
    )
}
