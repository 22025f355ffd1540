// What a mesh's edge tells: the weights of its borders, and the coordinates of a point that has only borders.
#![tactic(auto)]

pub mod coordinates;
pub mod edge;
