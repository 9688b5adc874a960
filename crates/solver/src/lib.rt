//! Solving: one subproblem from the work numbers before it (`subproblem`), and filling (`fill`).
#![tactic(auto)]

pub mod fill;
pub mod subproblem;
