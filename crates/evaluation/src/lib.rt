// Evaluation of a map: the surface at (s, t).
#![tactic(auto)]

pub mod evaluation;
