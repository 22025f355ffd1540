// A store of numbered control points: what each call on it means, making a point, reading, and the walk.
#![tactic(auto)]

pub mod store;
pub mod walk;
