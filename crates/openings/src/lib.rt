// The openings of a store, listed.
#![tactic(auto)]

pub mod list;
pub mod openings;
