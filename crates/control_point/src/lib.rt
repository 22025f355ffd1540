// The control points of a T-mesh: directions, sides, and the sides of all points lent as arrays.
#![tactic(auto)]

pub mod refusal;
pub mod sides;
pub mod small;
pub mod t_mesh_control_point;
pub mod t_mesh_direction;
