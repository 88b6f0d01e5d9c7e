// Machines that make samples one by one: definitions and laws alone, and no code.
#![tactic(auto)]
