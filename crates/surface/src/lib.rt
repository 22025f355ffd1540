// The surface of a map at (s, t): what an evaluation answers.
#![tactic(auto)]

pub mod evaluation;
