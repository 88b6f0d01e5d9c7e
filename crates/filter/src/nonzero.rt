// The stages from 1 on. Clauses say how long the slices are, and no type: C lends them one by one, and the type of a slice says no length.
ghost use Rattle.std.specs.Prelude.{◌≡◌, ◌*◌, ◌≤◌, ◌<◌, length};
ghost use Rattle.history.specs.Through.{passage, through};
ghost use Rattle.filter.specs.Sample.{state};
ghost use Rattle.filter.specs.NonZero.{sample_of};

use crate::Course;
use mglsa::MelGeneralizedLogSpectrumApproximation;

// One sample.
fn sample(x: f64, c: &mut [f64], course: Course<'_>, stages: usize, d: &mut [f64]) -> f64
    requires { (2 ≤ length c.old) × (length course.increments.now ≡ length c.old) × (stages * length c.old ≤ length d.old) }
    ensures { record { sample = result; state = state c.new d.new }
        ≡ sample_of course.entry.alpha stages course.entry.volume course.entry.increments.now (state c.old d.old) x }
{
    let loud = x * c[0];
    let y = mglsa::df(d, stages, loud, course.alpha, c);
    vectors::add(c, course.increments);
    y * course.volume
}

// The samples of a stretch, with the filter's rows of taps lent.
pub fn stretch_in(
    samples: &mut [f64],
    c: &mut [f64],
    course: Course<'_>,
    stages: usize,
    d: &mut [f64],
)
    requires { (2 ≤ length c.old) × (length course.increments.now ≡ length c.old) × (stages * length c.old ≤ length d.old) }
    ensures { passage samples.new (state c.new d.new)
        ≡ through (sample_of course.entry.alpha stages course.entry.volume course.entry.increments.now) (state c.old d.old) samples.old }
{
    for x in samples.iter_mut() {
        let y = sample(*x, c, course, stages, d);
        *x = y;
    }
}

// The samples of a stretch, and the filter after it.
pub fn stretch(
    f: MelGeneralizedLogSpectrumApproximation,
    stages: usize,
    samples: &mut [f64],
    c: &mut [f64],
    course: Course<'_>,
) -> MelGeneralizedLogSpectrumApproximation
    requires { (2 ≤ length c.old) × (length c.old ≤ 64) × (length course.increments.now ≡ length c.old) × (stages ≤ 8) }
    ensures { passage samples.new (state c.new result.d)
        ≡ through (sample_of course.entry.alpha stages course.entry.volume course.entry.increments.now) (state c.old f.d) samples.old }
{
    let mut d = f.d;
    stretch_in(samples, c, course, stages, &mut d);
    MelGeneralizedLogSpectrumApproximation { d }
}
