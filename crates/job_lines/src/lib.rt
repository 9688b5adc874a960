//! What a run of jobs needs beside the calls: its buffers, the numbers in a step's bytes, and what is printed of a step.
#![tactic(auto)]

pub mod memory;
pub mod numbers;
pub mod show;
