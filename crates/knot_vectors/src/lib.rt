// The knots of all listed points of a map.
#![tactic(auto)]

pub mod knots;
