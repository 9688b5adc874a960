//! The certificate's check after its front: item 23 record by record, on the bytes and a number; then item 24.
#![tactic(auto)]

mod gains;
pub mod rules;
pub mod top;
