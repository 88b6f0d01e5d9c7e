// What the calls keep of a voice, round trips, and demand 3 of the voice: laws alone, and no code.
#![tactic(auto)]
