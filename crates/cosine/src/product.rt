// The upper word of a product of two 64-bit numbers.
ghost use Rattle.std.specs.Prelude.{◌≡◌, ◌*◌, ◌/◌, ◌^◌};

// a * b / 2^64, rounded down, from the halves of each: every sum is below 2^64.
// By hand, and not `carrying_mul`: the edit low_carry_lost, which must stay refused, is of the carry between the halves.
pub(crate) fn high_product(a: u64, b: u64) -> u64
    ensures { result ≡ a * b / 2 ^ 64 }
{
    let low_a = a % 4294967296;
    let low_b = b % 4294967296;
    let high_a = a >> 32;
    let high_b = b >> 32;
    let first = high_a * low_b + ((low_a * low_b) >> 32);
    let second = low_a * high_b + first % 4294967296;
    high_a * high_b + (first >> 32) + (second >> 32)
}
