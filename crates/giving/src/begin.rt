// The coefficients of a frame: where they start, where they go, and by what steps.
// `first` is a flag of the voice, as C has it.
// How long the slices are is in clauses, since the type of a slice says no length.
ghost use Rattle.std.specs.Prelude.{◌≡◌, ◌≤◌, length};
ghost use Rattle.elementary.specs.Outcome.{prepared_of};
ghost use Rattle.prepare.specs.Preparing.{start_after, targets_after};
ghost use Rattle.giving.specs.Begin.{prepared_for, increments_of, increments_after};

use configuration::Configuration;
use elementary::answer::Outside;
use prepare::mel::prepare_mcp;
use prepare::pairs::prepare_lsp;

// The start coefficients and the targets, by the stage.
fn coefficients(
    configuration: Configuration,
    first: bool,
    spectrum: &[f64],
    start: &mut [f64],
    targets: &mut [f64],
) -> Result<(), Outside>
    requires in_bounds { (2 ≤ length spectrum.now) × (length spectrum.now ≤ 64) × (configuration.stage ≤ 8) }
    requires start_len { (length start.old ≡ length spectrum.now) × (length targets.old ≡ length spectrum.now) }
    ensures value { result ≡ prepared_of (prepared_for configuration first start.old spectrum.now) }
    ensures start_after { start.new ≡ start_after start.old (prepared_for configuration first start.old spectrum.now) }
    ensures targets_after { targets.new ≡ targets_after targets.old (prepared_for configuration first start.old spectrum.now) }
{
    let alpha = configuration.alpha;
    let beta = configuration.beta;
    let log = configuration.log;
    let stage = configuration.stage;
    if stage == 0 {
        return prepare_mcp(spectrum, alpha, beta, first, start, targets);
    }
    prepare_lsp(spectrum, alpha, beta, log, stage, first, start, targets)
}

// What each coefficient gains with a sample, so that it comes to its target in fperiod of them.
fn ramp(targets: &[f64], start: &[f64], fperiod: usize, increments: &mut [f64])
    requires { (length start.now ≡ length targets.now) × (length increments.old ≡ length targets.now) × (fperiod ≤ 4800) }
    ensures { increments.new ≡ increments_of fperiod targets.now start.now }
{
    for i in 0..increments.len() {
        increments[i] = (targets[i] - start[i]) / fperiod as f64;
    }
}

// All three. Where preparing is outside they stay.
pub fn begin(
    configuration: Configuration,
    first: bool,
    spectrum: &[f64],
    start: &mut [f64],
    targets: &mut [f64],
    increments: &mut [f64],
) -> Result<(), Outside>
    requires in_bounds { (2 ≤ length spectrum.now) × (length spectrum.now ≤ 64) × (configuration.stage ≤ 8) × (configuration.fperiod ≤ 4800) }
    requires start_len { (length start.old ≡ length spectrum.now) × (length targets.old ≡ length spectrum.now) × (length increments.old ≡ length spectrum.now) }
    ensures value { result ≡ prepared_of (prepared_for configuration first start.old spectrum.now) }
    ensures start_after { start.new ≡ start_after start.old (prepared_for configuration first start.old spectrum.now) }
    ensures targets_after { targets.new ≡ targets_after targets.old (prepared_for configuration first start.old spectrum.now) }
    ensures increments_after { increments.new
        ≡ increments_after configuration.fperiod increments.old (prepared_for configuration first start.old spectrum.now) }
{
    coefficients(configuration, first, spectrum, start, targets)?;
    ramp(targets, start, configuration.fperiod, increments);
    Ok(())
}
