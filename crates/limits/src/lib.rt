// The tests of the functions under C names, and the number of an answer.
// C wants numbers, so 0 and 9 stay here.
#![tactic(auto)]

ghost use Rattle.std.specs.Prelude.{◌≡◌};
ghost use Rattle.limits.specs.Limits.{entries_of, stage_of, generalized_of, number_for};

use elementary::answer::Outside;

// From 2 to 64 entries, and m of the other slice as many.
pub fn entries(n: usize, m: usize) -> bool
    ensures { result ≡ entries_of n m }
{
    n >= 2 && (n <= 64 && m == n)
}

// A stage from 1 to 8.
pub fn stage(s: u64) -> bool
    ensures { result ≡ stage_of s }
{
    s >= 1 && s <= 8
}

// From 1 to 65 entries, at a stage from 1 to 8.
pub fn general(n: usize, s: u64) -> bool
    ensures { result ≡ generalized_of n s }
{
    n >= 1 && (n <= 65 && stage(s))
}

// 0 done, 9 outside.
pub fn number(prepared: Result<(), Outside>) -> u64
    ensures { result ≡ number_for prepared }
{
    match prepared {
        Ok(()) => 0,
        Err(Outside) => 9,
    }
}
