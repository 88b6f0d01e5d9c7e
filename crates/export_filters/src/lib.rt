// What C and Rust reach of the filters, under C names. Each function is the stretch that it calls, behind a test of its lengths. C wants the number, 0 or 1,
// and the arguments one by one.
#![tactic(auto)]

ghost use Rattle.std.specs.Prelude.{◌≡◌, length};
ghost use Rattle.history.specs.Through.{passage, through};
ghost use Rattle.mlsa.specs.Mlsa.{filter};
ghost use Rattle.filter.specs.Sample.{state};
ghost use Rattle.filter.specs.Zero as zero;
ghost use Rattle.filter.specs.NonZero as nonzero;
ghost use Rattle.export_filters.specs.Filters.{zero_fits, nonzero_fits, number_of, done_where};

use filter::Course;
use limits::{entries, stage};

// n coefficients with m increments, and the lengths of d11, d12, d21 and d22.
fn zero_fits(n: usize, m: usize, one: usize, two: usize, rows: usize, answers: usize) -> bool
    ensures { result ≡ zero_fits n m one two rows answers }
{
    if !entries(n, m) {
        return false;
    }
    rows == 6 * n && (one == 6 && (two == 6 && answers == 6))
}

// n coefficients with m increments, and the length of the rows.
fn nonzero_fits(n: usize, m: usize, stages: u64, rows: usize) -> bool
    ensures { result ≡ nonzero_fits n m stages rows }
{
    if !entries(n, m) {
        return false;
    }
    if !stage(stages) {
        return false;
    }
    rows == stages as usize * n
}

// Stage 0.
#[unsafe(no_mangle)]
pub extern "C" fn kipawnore_mlsa_stretch(
    samples: &mut [f64],
    c: &mut [f64],
    increments: &[f64],
    alpha: f64,
    volume: f64,
    d11: &mut [f64],
    d12: &mut [f64],
    d21: &mut [f64],
    d22: &mut [f64],
) -> u64
    ensures value { result ≡ number_of (zero_fits (length c.old) (length increments.now) (length d11.old) (length d12.old) (length d21.old) (length d22.old)) }
    ensures d22_after { passage samples.new (state c.new (filter d11.new d12.new d21.new d22.new))
        ≡ done_where result (through (zero.sample_of alpha volume increments.now))
        (state c.old (filter d11.old d12.old d21.old d22.old)) samples.old }
{
    if !zero_fits(
        c.len(),
        increments.len(),
        d11.len(),
        d12.len(),
        d21.len(),
        d22.len(),
    ) {
        return 1;
    }
    let course = Course {
        increments,
        alpha,
        volume,
    };
    filter::zero::stretch_in(samples, c, course, d11, d12, d21, d22);
    0
}

// The stages from 1 to 8.
#[unsafe(no_mangle)]
pub extern "C" fn kipawnore_mglsa_stretch(
    samples: &mut [f64],
    c: &mut [f64],
    increments: &[f64],
    alpha: f64,
    volume: f64,
    stages: u64,
    d: &mut [f64],
) -> u64
    ensures value { result ≡ number_of (nonzero_fits (length c.old) (length increments.now) stages (length d.old)) }
    ensures d_after { passage samples.new (state c.new d.new)
        ≡ done_where result (through (nonzero.sample_of alpha stages volume increments.now)) (state c.old d.old) samples.old }
{
    if !nonzero_fits(c.len(), increments.len(), stages, d.len()) {
        return 1;
    }
    let course = Course {
        increments,
        alpha,
        volume,
    };
    filter::nonzero::stretch_in(samples, c, course, stages as usize, d);
    0
}
