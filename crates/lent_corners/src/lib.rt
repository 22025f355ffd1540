// The mesh of four corners, lent. That the arrays of points have their length is a premise, which their type meets; those who own such a mesh, in this
// repository, call `lend_corners`.
#![tactic(auto)]

ghost use Rattle.std.specs.Prelude.{◌≡◌};
ghost use Rattle.lent_mesh.specs.LentMesh.{lent_map, MeshRoom};
ghost use Rattle.lent_points.specs.Lent.{lent_points, Room, FilledTo};
ghost use Rattle.t_mesh.specs.Tmesh.{corners, new_tmesh};

use lent_mesh::{LentMesh, row_of};
use lent_points::LentPoints;
use t_mesh::t_mesh::{Position, corners};

// The four corners' points.
fn lend_corner_points(points: &mut LentPoints, weight: f64)
    requires { Room points.old }
    ensures held { FilledTo 4 (lent_points points.new) (corners weight) }
    ensures room { Room points.new }
{
    let four = corners(weight);
    points.put_lent_point(0, four[0]);
    points.put_lent_point(1, four[1]);
    points.put_lent_point(2, four[2]);
    points.put_lent_point(3, four[3]);
}

// The map of four corners, anticlockwise from bottom left, with one weight on all borders.
pub fn lend_corners(
    mesh: &mut LentMesh,
    weight: f64,
    bottom_left: Position,
    bottom_right: Position,
    top_right: Position,
    top_left: Position,
)
    requires { Room mesh.old.points }
    ensures map { lent_map mesh.new ≡ new_tmesh weight bottom_left bottom_right top_right top_left }
    ensures room { MeshRoom mesh.new }
{
    lend_corner_points(&mut mesh.points, weight);
    mesh.made = 4;
    let blank = [0.0; 3];
    mesh.positions = [blank; 128];
    mesh.positions[0] = row_of(bottom_left);
    mesh.positions[1] = row_of(bottom_right);
    mesh.positions[2] = row_of(top_right);
    mesh.positions[3] = row_of(top_left);
    mesh.listed = [false; 128];
    mesh.listed[0] = true;
    mesh.listed[1] = true;
    mesh.listed[2] = true;
    mesh.listed[3] = true;
}
