// Voices that hold f64s alone: definitions and laws alone, and no code.
#![tactic(auto)]
