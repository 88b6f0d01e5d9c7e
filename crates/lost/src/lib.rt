// When a sum stays as it is, whatever terms up to a size are added to it.
#![tactic(auto)]

ghost use Rattle.std.specs.Prelude.{◌≡◌, true, ◌≤◌, Float};
ghost use Rattle.number.specs.F64.{◌⊕◌, ◌⊗◌};
ghost use Rattle.lost.specs.Lost.{pattern_of, UpTo, lost_in};

use number::bits::bits_of;

// The infinity's pattern: those below it are numbers.
const INFINITY: u64 = 0x7ff0_0000_0000_0000;

// The size of x as a bit pattern.
fn pattern(x: f64) -> u64
    ensures { result ≡ pattern_of x }
{
    bits_of(x) % 0x8000_0000_0000_0000
}

// The later of p and the pattern of x.
pub fn later(p: u64, x: f64) -> u64
    ensures { (p ≤ result) × UpTo result x }
{
    p.max(pattern(x))
}

// Whether b is above zero and lost in a.
fn lost_in(a: f64, b: f64) -> bool
    ensures { result ≡ lost_in a b }
{
    (0.0 < b) & (b < a) & (a + b <= a) & (a <= a - b)
}

// Whether d stays as it is when the product is added of a number up to p and one up to q. Where the product of the largest such numbers is lost in d,
// so is every other, since rounding keeps the order.
pub fn unmoved(d: f64, p: u64, q: u64) -> bool
    ensures { result ≡ true → (x y : Float) → UpTo p x → UpTo q y → d ⊕ x ⊗ y ≡ d }
{
    if p >= INFINITY {
        return false;
    }
    if q >= INFINITY {
        return false;
    }
    let most = f64::from_bits(p) * f64::from_bits(q);
    if d < 0.0 {
        return lost_in(-d, most);
    }
    lost_in(d, most)
}
