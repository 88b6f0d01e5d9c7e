// Document 01's numbers to meet, in one table: theorems alone, and no code.
#![tactic(auto)]
