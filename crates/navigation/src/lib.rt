// The walk over the links of a mesh.
#![tactic(auto)]

pub mod walk;
