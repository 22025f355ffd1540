// The map by value that a lent mesh holds.
#![tactic(auto)]

ghost use Rattle.std.specs.Prelude.{◌≡◌};
ghost use Rattle.values.specs.Values.{values_from};
ghost use Rattle.lent_mesh.specs.LentMesh.{unpulled_at, made_or_loose, lent_map};
ghost use Rattle.lent_points.specs.Lent.{lent_points};

use control_point::t_mesh_control_point::{TmeshControlPoint, loose_point};
use grid_index::Index;
use lent_mesh::LentMesh;
use lent_points::LentPoints;
use ray::knots::PointKnots;
use t_mesh::t_mesh::{Mesh, Place, Position, Tmesh, unpulled};

// The points: the made ones, and loose ones beyond.
fn packed_points(lent: &LentPoints, made: u8) -> [TmeshControlPoint; 128]
    ensures { result ≡ values_from (made_or_loose (lent_points lent.now) made) 128 0 }
{
    let mut points = [loose_point(0.0); 128];
    for k in 0..made.min(128) {
        points[k as usize] = lent.lent_point(k);
    }
    points
}

// The places; every pull is 1.0.
fn packed_places(mesh: &LentMesh) -> [Place; 128]
    ensures { result ≡ values_from (unpulled_at mesh.now.positions) 128 0 }
{
    let blank = Place {
        position: Position {
            x: 0.0,
            y: 0.0,
            z: 0.0,
        },
        pull: 0.0,
    };
    let mut places = [blank; 128];
    for n in 0..128u8 {
        places[n as usize] = unpulled(mesh.lent_position(n));
    }
    places
}

// The map; no knots and no index are kept.
pub fn packed_map(mesh: &LentMesh) -> Tmesh
    ensures { result ≡ lent_map mesh.now }
{
    let points = packed_points(&mesh.points, mesh.made);
    let blank = PointKnots {
        s: [0.0; 5],
        t: [0.0; 5],
    };
    Tmesh {
        mesh: Mesh {
            points,
            made: mesh.made,
            places: packed_places(mesh),
            listed: mesh.listed,
        },
        kept: false,
        knots: [blank; 128],
        index: Index {
            first: [0; 256],
            second: [0; 256],
        },
    }
}
