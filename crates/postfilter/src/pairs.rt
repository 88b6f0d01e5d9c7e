// The postfilter of line spectral pairs.
// Room is in an array of the largest size: fixed memory.
ghost use Rattle.std.specs.Prelude.{◌≡◌, ◌≤◌, ◌<◌, length};
ghost use Rattle.elementary.specs.Outcome.{prepared_of, or_else, answer_of};
ghost use Rattle.postfilter.specs.Pairs.{moved_of, moves_of, spread_entry, spread_of, levelled, filtered_lsp, postfilter_lsp_of};

use crate::acting;
use elementary::answer::Outside;
use lsp::lsp2en;

// An entry between two others, moved towards the nearer one.
fn moved(beta: f64, before: f64, here: f64, after: f64) -> f64
    ensures { result ≡ moved_of beta before here after }
{
    let d1 = beta * (after - here);
    let d2 = beta * (here - before);
    before + d2 + (d2 * d2 * ((after - before) - (d1 + d2))) / ((d2 * d2) + (d1 * d1))
}

// Whether entry i of n moves: all but the first two and the last one.
fn moves(i: usize, n: usize) -> bool
    requires { i < n }
    ensures { result ≡ moves_of i n }
{
    i > 1 && i < n - 1
}

// Entry i.
fn entry(lsp: &[f64], beta: f64, i: usize) -> f64
    requires { i < length lsp.now }
    ensures { result ≡ spread_entry beta lsp.now i }
{
    if moves(i, lsp.len()) {
        moved(beta, lsp[i - 1], lsp[i], lsp[i + 1])
    } else {
        lsp[i]
    }
}

// All entries.
fn spread(lsp: &[f64], beta: f64, buf: &mut [f64])
    requires { length buf.old ≡ length lsp.now }
    ensures { buf.new ≡ spread_of beta lsp.now }
{
    for i in 0..lsp.len() {
        buf[i] = entry(lsp, beta, i);
    }
}

// Entry 0, so that the energy is en1 and not en2.
fn level(x: f64, en1: f64, en2: f64, log: bool) -> Result<f64, Outside>
    ensures { result ≡ answer_of (levelled log en1 en2 x) }
{
    if en1 == en2 {
        return Ok(x);
    }
    if !log {
        return Ok(x * root::sqrt(en1 / en2));
    }
    let y = logarithm::ln(en1 / en2)?;
    Ok(x + 0.5 * y)
}

// The postfilter where it acts, with room for the new entries.
fn filter_in(lsp: &mut [f64], beta: f64, log: bool, s: u64, buf: &mut [f64]) -> Result<(), Outside>
    requires { (2 < length lsp.old) × (length lsp.old ≤ 64) × (length buf.old ≡ length lsp.old) × (s ≤ 8) }
    ensures value { result ≡ prepared_of (filtered_lsp beta log s lsp.old) }
    ensures lsp_after { lsp.new ≡ or_else lsp.old (filtered_lsp beta log s lsp.old) }
{
    let en1 = lsp2en(lsp, log, s)?;
    spread(lsp, beta, buf);
    let en2 = lsp2en(buf, log, s)?;
    buf[0] = level(buf[0], en1, en2, log)?;
    vectors::copy(buf, lsp);
    Ok(())
}

// The postfilter. Where a function is outside, the pairs stay.
pub fn postfilter_lsp(lsp: &mut [f64], beta: f64, log: bool, s: u64) -> Result<(), Outside>
    requires { (length lsp.old ≤ 64) × (s ≤ 8) }
    ensures value { result ≡ prepared_of (postfilter_lsp_of beta log s lsp.old) }
    ensures lsp_after { lsp.new ≡ or_else lsp.old (postfilter_lsp_of beta log s lsp.old) }
{
    let n = lsp.len();
    if !acting(beta, n) {
        return Ok(());
    }
    let mut buf = [0.0; 64];
    filter_in(lsp, beta, log, s, &mut buf[0..n])
}
