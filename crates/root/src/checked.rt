// A quick root: a guess in floats, tested exactly in whole numbers.
ghost use Rattle.std.specs.Prelude.{◌≡◌, ℕ, ◌+◌, ◌*◌, ◌^◌, ◌<◌};
ghost use Rattle.root.specs.Parts.{NearestTo, RestOf};

use crate::digits::nearest_root;

// A number about two below the root of m * 2^52, by the digits of an estimate.
pub(crate) fn guess(near: f64) -> u64
    ensures { result < 2 ^ 53 }
{
    number::bits::bits_of(near) % 0x10_0000_0000_0000 + 0xf_ffff_ffff_fffe
}

// What q * q leaves of m * 2^54, in three steps, each modulo 2^64 and of few bits where q is near:
// none where it is too far off. A rest from 2^63 on says nothing.
fn rest_of(m: u64, q: u64) -> Option<u64>
    requires { (m < 2 ^ 54) × (q < 2 ^ 54) }
    ensures { RestOf m q result }
{
    let h = q / 134217728;
    let l = q % 134217728;
    let first = m.wrapping_sub(h * h);
    if first >= 0x1000_0000 {
        return None;
    }
    let second = (first * 67108864).wrapping_sub(h * l);
    if second >= 0x1_0000_0000 {
        return None;
    }
    Some((second * 268435456).wrapping_sub(l * l))
}

// The number nearest to the root of n, for whichever n has 4 * n = (2 * g + 1)^2 + rest: one, two
// or three above g.
fn above(g: u64, rest: u64) -> u64
    requires { (g < 2 ^ 53) × (rest < 24 * g + 48) }
    ensures { (n : ℕ) → (2 * g + 1) * (2 * g + 1) + rest ≡ 4 * n → NearestTo n result }
{
    let second = u64::from(rest >= 8 * g + 8);
    let third = u64::from(rest >= 16 * g + 24);
    g + 1 + second + third
}

// The whole number nearest to the root of m * 2^52: near the guess g, or found plainly.
pub(crate) fn checked(m: u64, g: u64) -> u64
    requires { (0 < m) × (m < 2 ^ 54) × (g < 2 ^ 53) }
    ensures { NearestTo (m * 2 ^ 52) result }
{
    let Some(rest) = rest_of(m, 2 * g + 1) else {
        return nearest_root(m);
    };
    if rest >= 24 * g + 48 {
        return nearest_root(m);
    }
    above(g, rest)
}
