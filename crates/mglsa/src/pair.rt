// Two stages side by side: their sums need no sample, so that the taps of both rows are warped in one loop, which also moves each of
// them one place on.
ghost use Rattle.std.specs.Prelude.{◌≡◌, ◌+◌, ◌-◌, ◌*◌, ◌≤◌, ◌<◌, length, take, drop};
ghost use Rattle.number.specs.F64.{◌‼◌};
ghost use Rattle.mglsa.specs.Mglsa.{passed, warped, stage_of};
ghost use Rattle.mglsa.specs.Pair.{standing, started, between, carried, Warped, both_of};

// What is carried from tap to tap of a row: the tap before as it is now, the tap here as it was, whose place the one before has taken,
// and the sum.
#[derive(Clone, Copy)]
pub struct Row {
    pub before: f64,
    pub here: f64,
    pub sum: f64,
}

impl Row {
    // The first two taps of the row at `from`, and the product of the first.
    fn start(d: &[f64], from: usize, factor: f64) -> Self
        requires { from + 1 < length d.now }
        ensures { result ≡ started d.now from factor }
    {
        Self {
            before: d[from],
            here: d[from + 1],
            sum: d[from] * factor,
        }
    }

    // The tap here between its neighbours.
    fn between(self, next: f64, alpha: f64) -> f64
        ensures { result ≡ between next alpha self }
    {
        self.here + alpha * (next - self.before)
    }

    // A tap on: the one here has become `tap`.
    fn on(self, tap: f64, next: f64, factor: f64) -> Self
        ensures { result ≡ carried tap next factor self }
    {
        Self {
            before: tap,
            here: next,
            sum: self.sum + tap * factor,
        }
    }
}

// What is carried of either row.
#[derive(Clone, Copy)]
pub struct Both {
    pub first: Row,
    pub second: Row,
}

// Tap i of both rows, of n taps each, between its neighbours and to the next place, and the sums with it.
fn warp_both_at(d: &mut [f64], alpha: f64, c: &[f64], i: usize, n: usize, s: Both) -> Both
    requires { (1 ≤ i) × (i + 1 < n) × (n + n ≤ length d.old) × (n ≤ length c.now) × (s.first.before ≡ standing i s.first.here (take n d.old) ‼ (i - 1)) × (s.second.before ≡ standing i s.second.here (drop n d.old) ‼ (i - 1)) }
    ensures { Warped alpha c.now i n s d.old result d.new }
{
    let j = n + i;
    let next = d[i + 1];
    let next2 = d[j + 1];
    let first = s.first.between(next, alpha);
    let second = s.second.between(next2, alpha);
    d[i + 1] = first;
    d[j + 1] = second;
    let factor = c[i + 1];
    Both {
        first: s.first.on(first, next, factor),
        second: s.second.on(second, next2, factor),
    }
}

// All taps but the first and the last of both rows, each to the next place, and the sums.
fn warp_both(d: &mut [f64], alpha: f64, c: &[f64]) -> Both
    requires { (2 ≤ length c.now) × (length d.old ≡ length c.now + length c.now) }
    ensures sum_after { passed (standing (length c.now - 1) result.first.here (take (length c.now) d.new)) result.first.sum ≡ warped alpha c.now (take (length c.now) d.old) }
    ensures sum2_after { passed (standing (length c.now - 1) result.second.here (drop (length c.now) d.new)) result.second.sum ≡ warped alpha c.now (drop (length c.now) d.old) }
{
    let n = c.len();
    let mut s = Both {
        first: Row::start(d, 0, c[1]),
        second: Row::start(d, n, c[1]),
    };
    for i in 1..n - 1 {
        s = warp_both_at(d, alpha, c, i, n, s);
    }
    s
}

// Two stages, one after the other, on two rows: after the loop only the first tap of each is left to be moved on.
fn dff_both(d: &mut [f64], x: f64, alpha: f64, c: &[f64]) -> f64
    requires { (2 ≤ length c.now) × (length d.old ≡ length c.now + length c.now) }
    ensures { passed d.new result ≡ both_of alpha c.now (passed d.old x) }
{
    let n = c.len();
    let s = warp_both(d, alpha, c);
    let out = x - s.first.sum;
    let out2 = out - s.second.sum;
    let first = d[0];
    let second = d[n];
    d[1] = first;
    d[n + 1] = second;
    d[0] = alpha * first + (1.0 - alpha * alpha) * out;
    d[n] = alpha * second + (1.0 - alpha * alpha) * out2;
    out2
}

// Stages i and i + 1, on their rows.
pub(crate) fn two_stages(d: &mut [f64], i: usize, x: f64, alpha: f64, c: &[f64]) -> f64
    requires { (2 ≤ length c.now) × (i * length c.now + length c.now + length c.now ≤ length d.old) }
    ensures { passed d.new result ≡ stage_of alpha c.now (i + 1) (stage_of alpha c.now i (passed d.old x)) }
{
    let n = c.len();
    let from = i * n;
    dff_both(&mut d[from..from + n + n], x, alpha, c)
}
