// The cosine of a float up to 2^20 in size, within 2^-44. All in whole numbers, in units of 2^-59: 1 is 2^59 units.
#![tactic(auto)]

ghost use Rattle.std.specs.Prelude.{◌≡◌, ◌*◌, ◌≤◌, true};
ghost use Rattle.elementary.specs.Exact.{cos_inside, CosAnswer};
ghost use Rattle.cosine.specs.Cos.{turn, units_of, rest_of, cos_of};
ghost use Rattle.cosine.specs.Both.{both_of};

use crate::sum::Pair;
use elementary::answer::Outside;

mod angle;
mod product;
mod sum;

// Whether |x| is at most 2^20.
fn is_inside(x: f64) -> bool
    ensures { result ≡ cos_inside x }
{
    number::range::within(x, -1048576.0, 1048576.0)
}

// How far |x| is from the nearest multiple of 2P, from the bits of x without the sign.
fn rest_of(x: f64) -> u64
    requires { cos_inside x ≡ true }
    ensures { (result ≡ rest_of (units_of x)) × (2 * result ≤ turn) }
{
    angle::rest(x.to_bits() % 0x8000_0000_0000_0000)
}

// Inside where |x| is at most 2^20. The series is that of two arguments, with x twice.
pub fn cos(x: f64) -> Result<f64, Outside>
    ensures value { result ≡ cos_of x }
    ensures cos_answer { CosAnswer x result }
{
    if is_inside(x) {
        let r = rest_of(x);
        let cosines = sum::cos_of_rests(Pair {
            first: r,
            second: r,
        });
        Ok(cosines.first)
    } else {
        Err(Outside)
    }
}

// The cosines of x and of y, in hardly more time than one: their series wait together.
pub fn cos_both(x: f64, y: f64) -> Result<(f64, f64), Outside>
    ensures { result ≡ both_of (cos_of x) (cos_of y) }
{
    if is_inside(x) & is_inside(y) {
        let cosines = sum::cos_of_rests(Pair {
            first: rest_of(x),
            second: rest_of(y),
        });
        Ok((cosines.first, cosines.second))
    } else {
        Err(Outside)
    }
}
