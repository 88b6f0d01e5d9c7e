// A filling in passes over 32 pairs, so that the compiler makes vectors of the logarithms and of the estimates of the roots, and the roots overlap each other.
// Arrays of numbers, not of tries: vectors are made of them, and `pairs_doubled` in specs/Gathering.antt speaks of them so.
ghost use Rattle.std.specs.Prelude.{◌≡◌, ℕ, ◌<◌, T, length};
ghost use Rattle.number.specs.F64.{◌‼◌};
ghost use Rattle.root.specs.Root.{root_of};
ghost use Rattle.elementary.specs.Exact.{ln_inside};
ghost use Rattle.noise.specs.Draw.{tries};
ghost use Rattle.noise.specs.Gathering.{weight_of, pairs_of, Gathers};

use crate::pair::{find_pair, weight};

// Finds the pairs one after the other from `next` on, r1, r2 and s of each, and gives `next` after them.
pub(crate) fn find_pairs(
    next: u64,
    firsts: &mut [f64; 32],
    seconds: &mut [f64; 32],
    sums: &mut [f64; 32],
) -> Option<u64>
    ensures { Gathers tries next result firsts.new seconds.new sums.new }
{
    let mut last = next;
    for i in 0..32 {
        // No `?`: an edit changes what is returned here.
        let Some(t) = find_pair(last) else {
            return None;
        };
        firsts[i] = t.r1;
        seconds[i] = t.r2;
        sums[i] = t.s;
        last = t.next;
    }
    Some(last)
}

// The weight of each sum.
pub(crate) fn weigh(sums: &[f64; 32], weights: &mut [f64; 32])
    requires { (k : ℕ) → k < 32 → T (ln_inside (sums.now ‼ k)) }
    ensures { (k : ℕ) → k < 32 → weights.new ‼ k ≡ weight_of (sums.now ‼ k) }
{
    for k in 0..sums.len() {
        weights[k] = weight(sums[k]);
    }
}

// An estimate of the root of each weight. Nothing is claimed of it.
pub(crate) fn estimate(weights: &[f64; 32], near: &mut [f64; 32]) {
    for k in 0..weights.len() {
        near[k] = root::estimate(weights[k]);
    }
}

// The values: the numbers of each pair times the root of its weight.
pub(crate) fn multiply(
    firsts: &[f64; 32],
    seconds: &[f64; 32],
    weights: &[f64; 32],
    near: &[f64; 32],
    queue: &mut [f64; 64],
)
    ensures { queue.new ≡ pairs_of (λ k. root_of (weights.now ‼ k)) 32 firsts.now seconds.now }
{
    for k in 0..32 {
        let m = root::sqrt_near(weights[k], near[k]);
        queue[2 * k] = firsts[k] * m;
        queue[2 * k + 1] = seconds[k] * m;
    }
}
