//! The laws that every crate above uses; they are all in specs/, and no code is here.
#![tactic(auto)]
