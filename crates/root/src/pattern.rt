// A bit pattern as a whole number times an even power of two.
ghost use Rattle.std.specs.Prelude.{◌≡◌, ◌*◌, ◌^◌, ◌<◌, ◌≤◌};
ghost use Rattle.root.specs.Parts.{Split};

// m * 4^j, m of 53 or 54 digits.
#[derive(Clone, Copy)]
pub(crate) struct Parts {
    pub(crate) m: u64,
    pub(crate) j: u64,
}

// m * 2^k, for an m of 53 digits.
fn even(m: u64, k: u64) -> Parts
    requires { (0x10_0000_0000_0000 ≤ m) × (m < 0x20_0000_0000_0000) × (k ≤ 2100) }
    ensures { (result.m * 4 ^ result.j ≡ m * 2 ^ k) × (0x10_0000_0000_0000 ≤ result.m) × (result.m < 0x40_0000_0000_0000) × (result.j ≤ 1050) }
{
    Parts {
        m: m << (k % 2),
        j: k / 2,
    }
}

// The number that the pattern b stands for, in units of 2^-1128. A subnormal one has its leading
// zeros shifted out.
pub(crate) fn split(b: u64) -> Parts
    requires { (1 ≤ b) × (b < 0x7ff0_0000_0000_0000) }
    ensures { Split b result.m result.j }
{
    if b < 0x10_0000_0000_0000 {
        let z = b.leading_zeros() - 11;
        return even(b << z, (54 - z) as u64);
    }
    even(
        b % 0x10_0000_0000_0000 + 0x10_0000_0000_0000,
        b / 0x10_0000_0000_0000 + 53,
    )
}
