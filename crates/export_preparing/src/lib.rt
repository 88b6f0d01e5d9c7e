// What C and Rust reach of preparing a frame, under C names. Each function is the one that it calls, behind a test of its lengths.
// C wants numbers and flags: 0 done, 1 a length or a stage that is not taken, 9 outside.
#![tactic(auto)]

ghost use Rattle.std.specs.Prelude.{◌≡◌, cond, ◌&&◌, length};
ghost use Rattle.prepare.specs.Preparing.{prepared_mcp, prepared_lsp, start_after, targets_after};
ghost use Rattle.limits.specs.Limits.{status, entries_of, stage_of};

use limits::{entries, number, stage};

// Stage 0.
#[unsafe(no_mangle)]
pub extern "C" fn kipawnore_prepare_mcp(
    spectrum: &[f64],
    alpha: f64,
    beta: f64,
    first: bool,
    start: &mut [f64],
    targets: &mut [f64],
) -> u64
    ensures value { result ≡ status (entries_of (length spectrum.now) (length start.old) && entries_of (length spectrum.now) (length targets.old))
        (prepared_mcp alpha beta first start.old spectrum.now) }
    ensures start_after { start.new ≡ cond (entries_of (length spectrum.now) (length start.old) && entries_of (length spectrum.now) (length targets.old))
        (start_after start.old (prepared_mcp alpha beta first start.old spectrum.now)) start.old }
    ensures targets_after { targets.new ≡ cond (entries_of (length spectrum.now) (length start.old) && entries_of (length spectrum.now) (length targets.old))
        (targets_after targets.old (prepared_mcp alpha beta first start.old spectrum.now)) targets.old }
{
    if !entries(spectrum.len(), start.len()) {
        return 1;
    }
    if !entries(spectrum.len(), targets.len()) {
        return 1;
    }
    number(prepare::mel::prepare_mcp(spectrum, alpha, beta, first, start, targets))
}

// Stages 1 to 8.
#[unsafe(no_mangle)]
pub extern "C" fn kipawnore_prepare_lsp(
    spectrum: &[f64],
    alpha: f64,
    beta: f64,
    log: bool,
    s: u64,
    first: bool,
    start: &mut [f64],
    targets: &mut [f64],
) -> u64
    ensures value { result ≡ status (entries_of (length spectrum.now) (length start.old) && (entries_of (length spectrum.now) (length targets.old) && stage_of s))
        (prepared_lsp alpha beta log s first start.old spectrum.now) }
    ensures start_after { start.new ≡ cond (entries_of (length spectrum.now) (length start.old) && (entries_of (length spectrum.now) (length targets.old) && stage_of s))
        (start_after start.old (prepared_lsp alpha beta log s first start.old spectrum.now)) start.old }
    ensures targets_after { targets.new ≡ cond (entries_of (length spectrum.now) (length start.old) && (entries_of (length spectrum.now) (length targets.old) && stage_of s))
        (targets_after targets.old (prepared_lsp alpha beta log s first start.old spectrum.now)) targets.old }
{
    if !entries(spectrum.len(), start.len()) {
        return 1;
    }
    if !entries(spectrum.len(), targets.len()) {
        return 1;
    }
    if !stage(s) {
        return 1;
    }
    number(prepare::pairs::prepare_lsp(spectrum, alpha, beta, log, s, first, start, targets))
}
