// The law of the grid, as one theorem (proofs/Law.antt). No code.
#![tactic(auto)]
