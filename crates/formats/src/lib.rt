//! Readers over bytes: why a table or a tree is refused (items 1 to 12, 25 and 26), and what stands in them.
#![tactic(auto)]

pub mod bytes;
pub mod inputs;
pub mod marks;
mod places;
pub mod serials;
pub mod split;
pub mod table;
pub mod tree;
