//! The front of a certificate's check: item 20 record by record, on the bytes and a number; then the items 21 and 22.
#![tactic(auto)]

pub mod marks;
pub mod weighing;
