// What is counted of a map.
#![tactic(auto)]

pub mod census;
pub mod counts;
