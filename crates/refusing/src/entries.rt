// Tests of every entry of a slice.
ghost use Rattle.std.specs.Prelude.{◌≡◌};
ghost use Rattle.number.specs.Range.{finite};
ghost use Rattle.refusing.specs.Refusal.{every, small};

use number::range::{is_finite, within};

// The size that a spectrum's entries may have at stage 1 or more: 2^20.
const MOST_SIZE: f64 = 1048576.0;

// Whether every entry is finite.
pub fn all_finite(values: &[f64]) -> bool
    ensures { result ≡ every finite values.now }
{
    values.iter().all(|x| is_finite(*x))
}

// Whether every entry is at most 2^20 in size.
pub fn all_within(values: &[f64]) -> bool
    ensures { result ≡ every small values.now }
{
    values.iter().all(|x| within(*x, -MOST_SIZE, MOST_SIZE))
}
