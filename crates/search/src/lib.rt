// The search for an inferred link of a T-mesh.
#![tactic(auto)]

pub mod search;
