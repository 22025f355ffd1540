// The insertion of a control point into a link of a T-mesh: what it means, and what it answers.
#![tactic(auto)]

pub mod insertion;
