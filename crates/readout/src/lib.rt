//! Reading a mapping out of work numbers.
#![tactic(auto)]

pub mod cycle;
