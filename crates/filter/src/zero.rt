// Stage 0.
// The taps are lent one by one, as C has them; the pairs lie in arrays of the largest size: fixed memory. Clauses say how long the slices are, and no type:
// the type of a slice says no length.
ghost use Rattle.std.specs.Prelude.{◌≡◌, ◌*◌, ◌≤◌, length};
ghost use Rattle.history.specs.Through.{passage, through};
ghost use Rattle.mlsa.specs.Mlsa.{filter};
ghost use Rattle.filter.specs.Sample.{state};
ghost use Rattle.filter.specs.Zero.{sample_of};

use crate::Course;
use crate::gains::gains;
use crate::laid::between;
use mlsa::MelLogSpectrumApproximation;

// The samples of a stretch, with the filter's taps lent one by one.
pub fn stretch_in(
    samples: &mut [f64],
    c: &mut [f64],
    course: Course<'_>,
    d11: &mut [f64],
    d12: &mut [f64],
    d21: &mut [f64],
    d22: &mut [f64],
)
    requires in_bounds { (2 ≤ length c.old) × (length course.increments.now ≡ length c.old) × (6 * length c.old ≤ length d21.old) × (length c.old ≤ 64) }
    requires d11_len { (length d11.old ≡ 6) × (length d12.old ≡ 6) × (length d22.old ≡ 6) }
    ensures { passage samples.new (state c.new (filter d11.new d12.new d21.new d22.new))
        ≡ through (sample_of course.entry.alpha course.entry.volume course.entry.increments.now)
        (state c.old (filter d11.old d12.old d21.old d22.old)) samples.old }
{
    let c0 = c[0];
    let increment = course.increments[0];
    gains(samples, c0, increment);
    let mut first = [0.0; 128];
    let mut second = [0.0; 128];
    between(
        samples,
        c,
        course,
        d11,
        d12,
        &mut first,
        &mut second,
        d21,
        d22,
    );
}

// The samples of a part of a stretch, and the filter after it.
fn part(
    f: MelLogSpectrumApproximation,
    samples: &mut [f64],
    c: &mut [f64],
    course: Course<'_>,
) -> MelLogSpectrumApproximation
    requires { (2 ≤ length c.old) × (length c.old ≤ 64) × (length course.increments.now ≡ length c.old) }
    ensures { passage samples.new (state c.new result)
        ≡ through (sample_of course.entry.alpha course.entry.volume course.entry.increments.now) (state c.old f) samples.old }
{
    let mut d11 = f.d11;
    let mut d12 = f.d12;
    let mut d21 = f.d21;
    let mut d22 = f.d22;
    stretch_in(samples, c, course, &mut d11, &mut d12, &mut d21, &mut d22);
    MelLogSpectrumApproximation { d11, d12, d21, d22 }
}

// The samples of a stretch, and the filter after it. It goes in two halves: called from two places, the loop over the samples stays a function by
// itself. Inside draw it has too few registers, and takes 13 ns a sample more at nmcp 25.
pub fn stretch(
    f: MelLogSpectrumApproximation,
    samples: &mut [f64],
    c: &mut [f64],
    course: Course<'_>,
) -> MelLogSpectrumApproximation
    requires { (2 ≤ length c.old) × (length c.old ≤ 64) × (length course.increments.now ≡ length c.old) }
    ensures { passage samples.new (state c.new result)
        ≡ through (sample_of course.entry.alpha course.entry.volume course.entry.increments.now) (state c.old f) samples.old }
{
    let n = samples.len();
    let half = n / 2;
    let middle = part(f, &mut samples[0..half], c, course);
    part(middle, &mut samples[half..n], c, course)
}
