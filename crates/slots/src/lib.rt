// A voice as the values of its slots, in the order of the rest records.
#![tactic(auto)]

pub mod gather;
pub mod places;

ghost use Rattle.std.specs.Prelude.{true, ◌≡◌};
ghost use Rattle.configuration.specs.Limits.{limits_kept};
ghost use Rattle.slots.specs.Slots.{count_of};

use configuration::Configuration;

// The slots of a voice of 64 coefficients and 64 taps at stage 8.
pub const MOST_SLOTS: usize = 917;

// The slots of a configuration.
pub const CONFIGURATION_SLOTS: usize = 12;

// How many slots a voice of this configuration has.
pub fn count_of(c: Configuration) -> usize
    requires { limits_kept c ≡ true }
    ensures { result ≡ count_of c }
{
    if c.stage == 0 {
        return 103 + 2 * c.nlpf + 9 * c.nmcp;
    }
    85 + 2 * c.nlpf + (3 + c.stage as usize) * c.nmcp
}
