// A float and its 64 bits. There is one NaN: every NaN pattern reads as it, and it is written as one pattern.
// By tests and constants of our own, not by std's `_with_nan` functions: the edits change these, and DECISIONS says what the compiler makes of them.
ghost use Rattle.std.specs.Prelude.{◌≡◌};
ghost use Rattle.number.specs.Bits.{bits_of, float_of};

// The bits of x; a NaN's are always 0x7FF8000000000000. Only a NaN differs from itself.
pub fn bits_of(x: f64) -> u64
    ensures { result ≡ bits_of x }
{
    if x == x {
        x.to_bits()
    } else {
        0x7FF8_0000_0000_0000
    }
}

// The float of the bits b. Above an infinity's pattern, the sign aside, every pattern is a NaN's.
pub fn float_of(b: u64) -> f64
    ensures { result ≡ float_of b }
{
    if b % 0x8000_0000_0000_0000 <= 0x7FF0_0000_0000_0000 {
        f64::from_bits(b)
    } else {
        0.0 / 0.0
    }
}
