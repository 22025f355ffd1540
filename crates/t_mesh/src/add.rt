// What an insertion answers.
use crate::t_mesh::{Mesh, Tmesh};
use control_point::refusal::Refusal;
use insertion::insertion::Insertion;

// What came of an insertion, and the map after it.
#[derive(Clone, Copy)]
pub struct Added {
    pub answer: Result<Insertion, Refusal>,
    pub map: Tmesh,
}

// What came of an insertion, and the mesh after it.
#[derive(Clone, Copy)]
pub struct InsertedMesh {
    pub answer: Result<Insertion, Refusal>,
    pub mesh: Mesh,
}
