// The first four rows of the taps of the second part, laid side by side in pairs, two in `first` and two in `second`, and back: a stretch of samples
// pays for it once.
ghost use Rattle.std.specs.Prelude.{◌≡◌, ℕ, ◌+◌, ◌*◌, ◌≤◌, ◌<◌, length, take, drop, set};
ghost use Rattle.number.specs.F64.{◌‼◌};
ghost use Rattle.number.specs.Lists.{put_row};
ghost use Rattle.lanes.specs.Lane.{lane};
ghost use Rattle.mlsa.specs.Laid.{flat};

// Tap i of each of the two rows of n taps that begin at `from` is laid.
fn lay_tap(pair: &mut [f64], d21: &[f64], n: usize, from: usize, i: usize)
    requires { (i < n) × (2 * n ≤ length pair.old) × (from + 2 * n ≤ length d21.now) }
    ensures { (k : ℕ) → k < 2 → lane k n pair.new ≡ set (lane k n pair.old) i (d21.now ‼ (from + k * n + i)) }
{
    let a = d21[from + i];
    let b = d21[from + n + i];
    lanes::put(pair, i, a, b);
}

// The two rows of n taps that begin at `from` are laid.
fn lay_pair(pair: &mut [f64], d21: &[f64], n: usize, from: usize)
    requires { (2 * n ≤ length pair.old) × (from + 2 * n ≤ length d21.now) }
    ensures { (k : ℕ) → k < 2 → lane k n pair.new ≡ take n (drop (from + k * n) d21.now) }
{
    for i in 0..n {
        lay_tap(pair, d21, n, from, i);
    }
}

// The four rows of n taps are laid.
pub fn lay(first: &mut [f64], second: &mut [f64], d21: &[f64], n: usize)
    requires { (2 * n ≤ length first.old) × (2 * n ≤ length second.old) × (4 * n ≤ length d21.now) }
    ensures { flat n first.new second.new d21.now ≡ d21.now }
{
    lay_pair(first, d21, n, 0);
    lay_pair(second, d21, n, 2 * n);
}

// Lane k as a row.
fn lane_back(out: &mut [f64], pair: &[f64], k: usize)
    requires { (k < 2) × (2 * length out.old ≤ length pair.now) }
    ensures { out.new ≡ lane k (length out.old) pair.now }
{
    for i in 0..out.len() {
        out[i] = pair[2 * i + k];
    }
}

// Row r of n taps, from lane k of a pair.
fn row_back(d21: &mut [f64], r: usize, pair: &[f64], k: usize, n: usize)
    requires { (r < 4) × (k < 2) × (2 * n ≤ length pair.now) × (4 * n ≤ length d21.old) }
    ensures { d21.new ≡ put_row (r * n) (r * n + n) (lane k n pair.now) d21.old }
{
    let from = r * n;
    lane_back(&mut d21[from..from + n], pair, k);
}

// The four rows of n taps from their lanes.
pub fn lay_back(d21: &mut [f64], first: &[f64], second: &[f64], n: usize)
    requires { (2 * n ≤ length first.now) × (2 * n ≤ length second.now) × (4 * n ≤ length d21.old) }
    ensures { d21.new ≡ flat n first.now second.now d21.old }
{
    row_back(d21, 0, first, 0, n);
    row_back(d21, 1, first, 1, n);
    row_back(d21, 2, second, 0, n);
    row_back(d21, 3, second, 1, n);
}
