// The planners' figures, as one theorem (proofs/Figures.antt). No code.
#![tactic(auto)]
