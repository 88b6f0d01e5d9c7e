// What the four functions share: the answer of those that have an outside.
#![tactic(auto)]

pub mod answer;
