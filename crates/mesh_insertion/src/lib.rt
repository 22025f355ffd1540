// Insertion of a point into a mesh.
#![tactic(auto)]

ghost use Rattle.std.specs.Prelude.{◌≡◌};
ghost use Rattle.t_mesh.specs.Insertion.{insert_into_mesh};

use control_point::refusal::Refusal;
use control_point::t_mesh_direction::TmeshDirection;
use insertion::insertion::{is_done, is_refused};
use lent_insertion::insert_point;
use lent_points::LentPoints;
use t_mesh::add::InsertedMesh;
use t_mesh::t_mesh::{Mesh, Position, is_listed, unpulled};

// Into the mesh alone: the knots of a map, which are large, need not be passed. The made points are unpacked, and packed where they stood.
pub fn insert_into(
    closeness: f64,
    mesh: Mesh,
    con: u8,
    direction: TmeshDirection,
    ratio: f64,
    position: Position,
) -> InsertedMesh
    ensures { result ≡ insert_into_mesh closeness mesh con direction ratio position }
{
    // The result stands first, with an answer that means nothing yet, and is read and changed in place: built at the end, or with the mesh read
    // beside it, it is copied once more.
    let mut inserted = InsertedMesh {
        answer: Err(Refusal::Foreign),
        mesh,
    };
    let p = inserted.mesh.made;
    let mut points = LentPoints::blank();
    for n in 0..p.min(128) {
        points.put_lent_point(n, inserted.mesh.points[n as usize]);
    }
    let listed = is_listed(inserted.mesh.listed, con);
    let answer = insert_point(closeness, &mut points, p, listed, con, direction, ratio);
    inserted.answer = answer;
    if !is_refused(answer) {
        for n in 0..p + 1 {
            inserted.mesh.points[n as usize] = points.lent_point(n);
        }
        inserted.mesh.made = p + 1;
        inserted.mesh.places[p as usize] = unpulled(position);
        inserted.mesh.listed[p as usize] = is_done(answer);
    }
    inserted
}
