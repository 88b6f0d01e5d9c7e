// A voice and its slots, there and back: laws alone, and no code.
#![tactic(auto)]
