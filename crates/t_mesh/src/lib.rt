// The map: a mesh of control points with their positions and pulls, which of them are listed, and the knots kept for evaluation with their index.
#![tactic(auto)]

pub mod add;
pub mod t_mesh;
