//! Proofs only: the small plants of paper 01 as one table with one theorem. No code.
#![tactic(auto)]
