// The root of a whole number digit by digit: plain, and right for every number.
// That m is below 2^54 is a clause here and in `checked`: a type around one number is no plainer.
ghost use Rattle.std.specs.Prelude.{◌≡◌, ◌+◌, ◌*◌, ◌^◌, ◌<◌, ◌≤◌};
ghost use Rattle.root.specs.Parts.{NearestTo};

// A root rounded down, and what its square leaves of the number.
#[derive(Clone, Copy)]
struct Floor {
    root: u64,
    rest: u64,
}

// The root of m * 2^52, two binary digits of it and one of the root a turn.
fn floor_root(m: u64) -> Floor
    requires { m < 2 ^ 54 }
    ensures { (result.root * result.root + result.rest ≡ m * 2 ^ 52) × (result.rest ≤ 2 * result.root) × (result.root < 2 ^ 53) }
{
    let mut digits = m << 10;
    let mut root: u64 = 0;
    let mut rest: u64 = 0;
    for i in 0u64..53 {
        let next = rest * 4 + (digits >> 62);
        let trial = root * 4 + 1;
        digits = digits << 2;
        if next >= trial {
            rest = next - trial;
            root = root * 2 + 1;
        } else {
            rest = next;
            root = root * 2;
        }
    }
    Floor { root, rest }
}

// The whole number nearest to the root of m * 2^52.
pub(crate) fn nearest_root(m: u64) -> u64
    requires { (0 < m) × (m < 2 ^ 54) }
    ensures { NearestTo (m * 2 ^ 52) result }
{
    let f = floor_root(m);
    if f.rest > f.root { f.root + 1 } else { f.root }
}
