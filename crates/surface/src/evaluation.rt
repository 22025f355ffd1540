// What an evaluation of a map answers.

use control_point::refusal::Refusal;
use t_mesh::t_mesh::Tmesh;

// A position with its total weight.
#[derive(Clone, Copy)]
pub struct Evaluation {
    pub x: f64,
    pub y: f64,
    pub z: f64,
    pub weight: f64,
}

// What an evaluation or a set-point answers, and the map after it.
#[derive(Clone, Copy)]
pub struct Evaluated {
    pub answer: Result<Evaluation, Refusal>,
    pub map: Tmesh,
}

// A point's weight, and its position times that.
#[derive(Clone, Copy)]
pub struct Share {
    pub x: f64,
    pub y: f64,
    pub z: f64,
    pub weight: f64,
}
