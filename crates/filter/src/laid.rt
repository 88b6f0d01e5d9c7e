// Stage 0 after the gains, with the first four rows of taps laid side by side, in two pairs, during a stretch. What it comes to is what `zero` says.
// `nonzero` has its own loop over the samples: what the two share is one call and one line.
// Clauses say how long the slices are, and no type: C lends the taps one by one, and the type of a slice says no length.
ghost use Rattle.std.specs.Prelude.{◌≡◌, ℕ, ◌*◌, ◌≤◌, ◌<◌, length};
ghost use Rattle.history.specs.Through.{passage, through};
ghost use Rattle.mlsa.specs.Mlsa.{filter};
ghost use Rattle.mlsa.specs.Laid.{flat};
ghost use Rattle.filter.specs.Sample.{state};
ghost use Rattle.filter.specs.Zero.{filtered_of};

use crate::Course;
use mlsa::layout;

// One sample, which has its gain.
fn sample(
    x: f64,
    c: &mut [f64],
    course: Course<'_>,
    d11: &mut [f64],
    d12: &mut [f64],
    first: &mut [f64],
    second: &mut [f64],
    d21: &mut [f64],
    d22: &mut [f64],
) -> f64
    requires in_bounds { (2 ≤ length c.old) × (length course.increments.now ≡ length c.old) × (6 * length c.old ≤ length d21.old) }
    requires c_in_bounds { (2 * length c.old ≤ length first.old) × (2 * length c.old ≤ length second.old) × (length d11.old ≡ 6) × (length d12.old ≡ 6) × (length d22.old ≡ 6) }
    ensures { (n : ℕ) → length c.old ≡ n
        → record { sample = result; state = state c.new (filter d11.new d12.new (flat n first.new second.new d21.new) d22.new) }
        ≡ filtered_of course.entry.alpha course.entry.volume course.entry.increments.now (state c.old (filter d11.old d12.old (flat n first.old second.old d21.old) d22.old)) x }
{
    let y = mlsa::df_laid(d11, d12, first, second, d21, d22, x, course.alpha, c);
    vectors::add(c, course.increments);
    y * course.volume
}

// The samples of a stretch, which have their gains.
fn samples_in(
    samples: &mut [f64],
    c: &mut [f64],
    course: Course<'_>,
    d11: &mut [f64],
    d12: &mut [f64],
    first: &mut [f64],
    second: &mut [f64],
    d21: &mut [f64],
    d22: &mut [f64],
)
    requires in_bounds { (2 ≤ length c.old) × (length course.increments.now ≡ length c.old) × (6 * length c.old ≤ length d21.old) }
    requires c_in_bounds { (2 * length c.old ≤ length first.old) × (2 * length c.old ≤ length second.old) × (length d11.old ≡ 6) × (length d12.old ≡ 6) × (length d22.old ≡ 6) }
    ensures { passage samples.new
        (state c.new (filter d11.new d12.new (flat (length c.old) first.new second.new d21.new) d22.new))
        ≡ through (filtered_of course.entry.alpha course.entry.volume course.entry.increments.now)
        (state c.old (filter d11.old d12.old (flat (length c.old) first.old second.old d21.old) d22.old)) samples.old }
{
    for x in samples.iter_mut() {
        let y = sample(*x, c, course, d11, d12, first, second, d21, d22);
        *x = y;
    }
}

// The rows are laid, the samples made, and the rows laid back.
pub(crate) fn between(
    samples: &mut [f64],
    c: &mut [f64],
    course: Course<'_>,
    d11: &mut [f64],
    d12: &mut [f64],
    first: &mut [f64],
    second: &mut [f64],
    d21: &mut [f64],
    d22: &mut [f64],
)
    requires in_bounds { (2 ≤ length c.old) × (length course.increments.now ≡ length c.old) × (6 * length c.old ≤ length d21.old) }
    requires c_in_bounds { (2 * length c.old ≤ length first.old) × (2 * length c.old ≤ length second.old) × (length d11.old ≡ 6) × (length d12.old ≡ 6) × (length d22.old ≡ 6) }
    ensures { passage samples.new (state c.new (filter d11.new d12.new d21.new d22.new))
        ≡ through (filtered_of course.entry.alpha course.entry.volume course.entry.increments.now)
        (state c.old (filter d11.old d12.old d21.old d22.old)) samples.old }
{
    let n = c.len();
    layout::lay(first, second, d21, n);
    samples_in(samples, c, course, d11, d12, first, second, d21, d22);
    layout::lay_back(d21, first, second, n);
}
