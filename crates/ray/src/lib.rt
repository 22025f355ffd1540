// Rays, the intervals met from a point in a direction, and the knots of a point.
#![tactic(auto)]

pub mod knots;
pub mod ray;
