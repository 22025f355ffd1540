// The approach of a march to its ray.
#![tactic(auto)]

pub mod approach;
