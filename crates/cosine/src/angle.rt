// How far |x| is from the nearest multiple of 2P. |x| and the multiple have more than 64 bits in units of 2^-59: only their lower words are made.
ghost use Rattle.std.specs.Prelude.{◌≡◌, ℕ, ◌*◌, ◌/◌, ◌%◌, ◌^◌, ◌<◌, ◌≤◌};
ghost use Rattle.root.specs.Parts.{pattern_units};
ghost use Rattle.cosine.specs.Cos.{turn, multiple, gap, rest_of};

// The number of the bit pattern b, up to 2^20, in units of 2^-n, rounded down, modulo 2^64.
fn units(b: u64, n: u64) -> u64
    requires { (b ≤ 0x4130_0000_0000_0000) × (n ≤ 59) }
    ensures { result ≡ pattern_units b * 2 ^ n / 2 ^ 1074 % 2 ^ 64 }
{
    let digits = b % 0x10_0000_0000_0000 + 0x10_0000_0000_0000;
    let field = b / 0x10_0000_0000_0000;
    if field + n >= 1075 {
        return digits << (field + n - 1075);
    }
    let drop = 1075 - (field + n);
    if drop < 64 { digits >> drop } else { 0 }
}

// k * 2P, rounded down, modulo 2^64: 2P is 3622009729038561421 units and 13522270992397 / 2^46 of one.
// Within 2 units of the exact multiple.
fn multiple_of(k: u64) -> u64
    requires { k ≤ 2 ^ 18 }
    ensures { result ≡ multiple k % 2 ^ 64 }
{
    k.wrapping_mul(3622009729038561421)
        .wrapping_add((k * 13522270992397) >> 46)
}

// How far two numbers are from one another, from their lower words, where that is below 2^63: the sign bit of the difference says which is larger.
fn distance(x: u64, y: u64) -> u64
    ensures { (p q : ℕ) → p % 2 ^ 64 ≡ x → q % 2 ^ 64 ≡ y → gap p q < 2 ^ 63 → result ≡ gap p q }
{
    let d = x.wrapping_sub(y);
    if d < 0x8000_0000_0000_0000 {
        d
    } else {
        d.wrapping_neg()
    }
}

// The distance to a multiple near by, and where that is more than half of 2P, to the next one.
// |x| is within 1 unit and the multiple within 2: the distance is within 2, and within 3 once it is taken from 2P.
pub(crate) fn rest(b: u64) -> u64
    requires { b ≤ 0x4130_0000_0000_0000 }
    ensures { (result ≡ rest_of (pattern_units b * 2 ^ 59 / 2 ^ 1074)) × (2 * result ≤ turn) }
{
    let k = (units(b, 0) * 683565275 + 2147483648) >> 32;
    let far = distance(units(b, 59), multiple_of(k));
    if far > 1811004864519280710 {
        3622009729038561421 - far
    } else {
        far
    }
}
