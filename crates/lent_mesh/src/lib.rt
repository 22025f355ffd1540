// A mesh, lent: its points as `lent_points` lends them, how many are made, the positions as rows of three floats, and the listing. A number
// below 128 is a premise of `lent_position`: only this repository calls these functions.
#![tactic(auto)]

ghost use Rattle.std.specs.Prelude.{◌≡◌, ◌<◌};
ghost use Rattle.t_mesh.specs.Tmesh.{listed_in};
ghost use Rattle.lent_mesh.specs.LentMesh.{row_of, lent_position, MeshRoom};

use lent_points::LentPoints;
use t_mesh::t_mesh::Position;

// A position as a row. No `From`: both types are of other crates.
pub fn row_of(position: Position) -> [f64; 3]
    ensures { result ≡ row_of position }
{
    [position.x, position.y, position.z]
}

#[derive(Clone, Copy)]
pub struct LentMesh {
    pub points: LentPoints,
    pub made: u8,
    pub positions: [[f64; 3]; 128],
    pub listed: [bool; 128],
}

impl LentMesh {
    // What stands in the arrays before they are filled means nothing.
    pub fn blank() -> LentMesh
        ensures { MeshRoom result }
    {
        let row = [0.0; 3];
        LentMesh {
            points: LentPoints::blank(),
            made: 0,
            positions: [row; 128],
            listed: [false; 128],
        }
    }

    // The position of the point under a number.
    pub fn lent_position(&self, n: u8) -> Position
        requires { n < 128 }
        ensures { result ≡ lent_position self.now.positions n }
    {
        let row = self.positions[n as usize];
        Position {
            x: row[0],
            y: row[1],
            z: row[2],
        }
    }

    // Whether a number is listed.
    pub fn lent_listed(&self, n: u8) -> bool
        ensures { result ≡ listed_in self.now.listed n }
    {
        n < 128 && self.listed[n as usize]
    }
}
