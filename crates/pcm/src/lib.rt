// Samples as whole numbers of 16 or 24 bits: rounded to the nearest, a tie to the even one, held to the width, a NaN as 0; and how many were held back.
#![tactic(auto)]

ghost use Rattle.std.specs.Prelude.{◌≡◌, ℕ, suc, ◌*◌, ◌%◌, ◌^◌, ◌≤◌, length, refl};
ghost use Rattle.std.proofs.Common.{lit≤};
ghost use Rattle.pcm.specs.Sample.{is_held, word_of, Limits, Ends};
ghost use Rattle.pcm.specs.Samples.{bytes_of_all, count};

// Bits whose lowest are those of the number of x at a width of h + 1 bits: scale is 2^(h - 15), low is -2^h and high is 2^h - 1. The sum with 3 * 2^51 lies from 2^52
// to 2^53, where the floats are the whole numbers: it is rounded as asked, and its pattern ends in the bits of the whole number.
fn word(x: f64, scale: f64, low: f64, high: f64) -> u64
    requires { (h : ℕ) × Limits scale low high h }
    ensures { (h : ℕ) → Limits scale low high h → result % 2 ^ suc h ≡ word_of (suc h) x }
{
    let y = x * scale;
    let number = if y.is_nan() { 0.0 } else { y };
    (number.clamp(low, high) + 6755399441055744.0).to_bits()
}

// Whether x is held back: times scale it is below low, which is -2^h - 1/2, or from high on, which is 2^h - 1/2.
fn is_held(x: f64, scale: f64, low: f64, high: f64) -> bool
    ensures { (h : ℕ) → Ends scale low high h → result ≡ is_held (suc h) x }
{
    let y = x * scale;
    (high <= y) | (y < low)
}

// A width of the numbers, by its bytes.
pub trait Width {
    const BYTES: usize;

    ghost BYTES: { ℕ };

    // Bits whose lowest are those of the number of x.
    fn word(x: f64) -> u64
        ensures { result % 2 ^ (8 * BYTES) ≡ word_of (8 * BYTES) x };

    // Whether x is held back.
    fn is_held(x: f64) -> bool
        ensures { result ≡ is_held (8 * BYTES) x };

    ghost within_a_word: { BYTES ≤ 8 };
}

#[derive(Clone, Copy)]
pub struct Bits16;

impl Width for Bits16 {
    const BYTES: usize = 2;

    ghost BYTES = { 2 };

    fn word(x: f64) -> u64 {
        word(x, 1.0, -32768.0, 32767.0)
    }

    fn is_held(x: f64) -> bool {
        is_held(x, 1.0, -32768.5, 32767.5)
    }

    ghost within_a_word = { lit≤ tt };
}

#[derive(Clone, Copy)]
pub struct Bits24;

impl Width for Bits24 {
    const BYTES: usize = 3;

    ghost BYTES = { 3 };

    fn word(x: f64) -> u64 {
        word(x, 256.0, -8388608.0, 8388607.0)
    }

    fn is_held(x: f64) -> bool {
        is_held(x, 256.0, -8388608.5, 8388607.5)
    }

    ghost within_a_word = { lit≤ tt };
}

// The bytes of the samples, so many for each as the width has, the lower first. The answer is how many were held back.
pub fn put<W: Width>(out: &mut [u8], samples: &[f64]) -> usize
    requires { length out.old ≡ W.BYTES * length samples.now }
    ensures held { result ≡ count (is_held (8 * W.BYTES)) samples.now }
    ensures bytes { out.new ≡ bytes_of_all W.BYTES (word_of (8 * W.BYTES)) samples.now }
{
    let k = W::BYTES;
    let mut held = 0;
    for (i, &x) in samples.iter().enumerate() {
        let bytes = W::word(x).to_le_bytes();
        out[k * i..k * i + k].copy_from_slice(&bytes[..k]);
        held += usize::from(W::is_held(x));
    }
    held
}
