// The argument of exp as a multiple of ln 2 and a rest, in whole numbers of units of 2^-54.
// From 1/4 up the argument is exact and the multiple is rounded down; below it is rounded down, and
// there is no multiple. So the rest is within one unit of the exact one.
ghost use Rattle.std.specs.Prelude.{◌≡◌, ◌+◌, ◌-◌, ◌*◌, ◌/◌, ◌^◌, ◌<◌, ◌≤◌};
ghost use Rattle.root.specs.Parts.{pattern_units};
ghost use Rattle.exponential.specs.Exp.{multiples};

// The number that the pattern b stands for, rounded down, for a pattern up to that of 709.
pub(crate) fn units(b: u64) -> u64
    requires { b ≤ 0x4086_2800_0000_0000 }
    ensures { result ≡ pattern_units b / 2 ^ 1020 }
{
    let e = b / 0x10_0000_0000_0000;
    if e < 969 {
        return 0;
    }
    ((b % 0x10_0000_0000_0000 + 0x10_0000_0000_0000) * 2048) >> (1032 - e)
}

// j times ln 2 in units of 2^-53, rounded down.
pub(crate) fn multiple(j: u64) -> u64
    requires { j < 2048 }
    ensures { result ≡ multiples j }
{
    j * 6243314768165359 + j * 1881434294738959 / 9007199254740992
}

// The k whose multiple of ln 2 is nearest to u: a guess that is right or one too large.
pub(crate) fn nearest(u: u64) -> u64
    requires { u ≤ 12772208543222726656 }
    ensures { (result ≤ 1023) × (u ≤ multiples (2 * result + 1)) × (1 ≤ result → multiples (2 * result - 1) < u) }
{
    let k = (u + 6243314768165359) / 12486629536330718;
    if k > 0 {
        if u <= multiple(2 * k - 1) {
            return k - 1;
        }
    }
    k
}
