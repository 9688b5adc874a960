//! Proofs only: what the three numbers of `sizes` are good for, over the definitions and contracts of the calls that are lent memory. No code.
#![tactic(auto)]
