// One entry of a ray, and where the ray then stands.
#![tactic(auto)]

pub mod entry;
