//! Proofs only: mappings, values, and the theorem that nothing weighs more. No code.
#![tactic(auto)]
