// Line spectral pairs to linear prediction, by two chains of sections.
// The parts of the chains are lent one by one: a struct of `&mut` would want a clause for each in every function that takes it. They lie in arrays of the largest
// size: fixed memory. `odd` is that of the number of pairs, so no closure picks the way.
// How long the slices are is in clauses, since the type of a slice says no length.
#![tactic(auto)]

ghost use Rattle.std.specs.Prelude.{◌≡◌, ◌+◌, ◌/◌, ◌≤◌, length, drop, replicate, OnOk, OnErr};
ghost use Rattle.number.specs.F64.{0f, 1f};
ghost use Rattle.elementary.specs.Outcome.{outside, inside, prepared_of, or_else};
ghost use Rattle.lattice.specs.Lattice.{every_other, weights_of, inputs, output, a_in, b_in, predicted, lsp2lpc_of};

use elementary::answer::Outside;

// -2 cos of the entries 0, 2, .. into p and of 1, 3, .. into q, until one is outside. One of each in a turn, since two cosines last hardly longer than one; where p has one more, it comes last.
fn weights(lsp: &[f64], p: &mut [f64], q: &mut [f64]) -> Result<(), Outside>
    requires { (length p.old ≡ (length lsp.now + 1) / 2) × (length q.old ≡ length lsp.now / 2) × (length lsp.now ≤ 64) }
    ensures lsp_value { OnErr result (lsp2lpc_of lsp.now ≡ outside) }
    ensures lsp_value_2 { OnOk result ((weights_of (every_other lsp.now) ≡ inside p.new)
        × (weights_of (every_other (drop 1 lsp.now)) ≡ inside q.new)) }
{
    let half = q.len();
    for i in 0..half {
        let even = lsp[2 * i];
        let odd = lsp[2 * i + 1];
        let (y, z) = cosine::cos_both(even, odd)?;
        p[i] = -2.0 * y;
        q[i] = -2.0 * z;
    }
    if half < p.len() {
        let x = cosine::cos(lsp[2 * half])?;
        p[half] = -2.0 * x;
    }
    Ok(())
}

// Sends x through the sections of weights p. a1 and a2 are what went into each of them at the last turn and at the one before it.
fn chain(x: f64, p: &[f64], a1: &mut [f64], a2: &mut [f64]) -> f64
    requires { (length a1.old ≡ length p.now) × (length a2.old ≡ length p.now) }
    ensures value { result ≡ output x p.now a1.old a2.old }
    ensures a1_after { a1.new ≡ inputs x p.now a1.old a2.old }
    ensures a2_after { a2.new ≡ a1.old }
{
    let mut a0 = x;
    for i in 0..p.len() {
        let next = a0 + p[i] * a1[i] + a2[i];
        a2[i] = a1[i];
        a1[i] = a0;
        a0 = next;
    }
    a0
}

// What goes into the chain of p, and into that of q, where xx goes in, xf went in at the last turn and xff at the one before it.
fn a_in(odd: bool, xx: f64, xf: f64) -> f64
    ensures { result ≡ a_in odd xx xf }
{
    if odd { xx } else { xx + xf }
}

fn b_in(odd: bool, xx: f64, xf: f64, xff: f64) -> f64
    ensures { result ≡ b_in odd xx xf xff }
{
    if odd { xx - xff } else { xx - xf }
}

// What the two chains make of an impulse, turn by turn.
fn predict(
    odd: bool,
    p: &[f64],
    q: &[f64],
    a1: &mut [f64],
    a2: &mut [f64],
    b1: &mut [f64],
    b2: &mut [f64],
    lpc: &mut [f64],
)
    requires a1_len { (length a1.old ≡ length p.now) × (length a2.old ≡ length p.now) }
    requires b1_len { (length b1.old ≡ length q.now) × (length b2.old ≡ length q.now) × (length lpc.old ≤ 65) }
    ensures { lpc.new ≡ predicted odd p.now q.now (length lpc.old)
        1f 0f 0f a1.old a2.old b1.old b2.old }
{
    let mut xx = 1.0;
    let mut xf = 0.0;
    let mut xff = 0.0;
    for k in 0..lpc.len() {
        let a0 = chain(a_in(odd, xx, xf), p, a1, a2);
        let b0 = chain(b_in(odd, xx, xf, xff), q, b1, b2);
        lpc[k] = -(-0.5 * (a0 + b0));
        xff = xf;
        xf = xx;
        xx = 0.0;
    }
}

// Linear prediction, with room for the weights and for chains at rest.
fn lpc_in(
    lsp: &[f64],
    p: &mut [f64],
    q: &mut [f64],
    a1: &mut [f64],
    a2: &mut [f64],
    b1: &mut [f64],
    b2: &mut [f64],
    lpc: &mut [f64],
) -> Result<(), Outside>
    requires lsp_len_bound { (length lsp.now ≤ 64) × (length lpc.old ≡ length lsp.now + 1) }
    requires p_len { (length p.old ≡ (length lsp.now + 1) / 2) × (length q.old ≡ length lsp.now / 2) }
    requires a1_value { (a1.old ≡ replicate (length p.old) 0f) × (a2.old ≡ replicate (length p.old) 0f) }
    requires b1_value { (b1.old ≡ replicate (length q.old) 0f) × (b2.old ≡ replicate (length q.old) 0f) }
    ensures value { result ≡ prepared_of (lsp2lpc_of lsp.now) }
    ensures lpc_after { lpc.new ≡ or_else lpc.old (lsp2lpc_of lsp.now) }
{
    weights(lsp, p, q)?;
    predict(lsp.len() % 2 == 1, p, q, a1, a2, b1, b2, lpc);
    lpc[0] = 1.0;
    Ok(())
}

// Linear prediction of one entry more than there are pairs. Where a cosine is outside, it stays.
pub fn lsp2lpc(lsp: &[f64], lpc: &mut [f64]) -> Result<(), Outside>
    requires { (1 ≤ length lsp.now) × (length lsp.now ≤ 64) × (length lpc.old ≡ length lsp.now + 1) }
    ensures value { result ≡ prepared_of (lsp2lpc_of lsp.now) }
    ensures lpc_after { lpc.new ≡ or_else lpc.old (lsp2lpc_of lsp.now) }
{
    let mh1 = (lsp.len() + 1) / 2;
    let mh2 = lsp.len() / 2;
    let mut p = [0.0; 32];
    let mut q = [0.0; 32];
    let mut a1 = [0.0; 32];
    let mut a2 = [0.0; 32];
    let mut b1 = [0.0; 32];
    let mut b2 = [0.0; 32];
    lpc_in(
        lsp,
        &mut p[0..mh1],
        &mut q[0..mh2],
        &mut a1[0..mh1],
        &mut a2[0..mh1],
        &mut b1[0..mh2],
        &mut b2[0..mh2],
        lpc,
    )
}
