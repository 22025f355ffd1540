// The placing of a new point in a link.
#![tactic(auto)]

ghost use Rattle.std.specs.Prelude.{◌≡◌, ◌<◌};
ghost use Rattle.lent_points.specs.Lent.{lent_points, Room};
ghost use Rattle.insertion.specs.Insert.{point_in_line};
ghost use Rattle.insertion.specs.Lent.{points_placed};

use control_point::t_mesh_control_point::{Side, TmeshControlPoint, loose_point, with_side};
use control_point::t_mesh_direction::TmeshDirection;
use lent_points::LentPoints;

// A new point with borders of 0.0, its two sides in line opened.
fn point_in_line(direction: TmeshDirection) -> TmeshControlPoint
    ensures { result ≡ point_in_line direction }
{
    let ahead = with_side(loose_point(0.0), direction, Side::Opening);
    with_side(ahead, direction.flip(), Side::Opening)
}

// The link from con to the other point is cut, p is made, and both are joined to it, at the two parts of the interval.
pub fn place(
    points: &mut LentPoints,
    con: u8,
    other: u8,
    p: u8,
    direction: TmeshDirection,
    interval: f64,
    ratio: f64,
)
    requires { ((con < p) × ((other < p) × (p < 128))) × Room points.old }
    ensures { let before = lent_points points.old in
        let after = lent_points points.new in
        Room points.new × (after ≡ points_placed before con other p direction interval ratio) }
{
    points.sides.put_side(con, direction, Side::Opening);
    points
        .sides
        .put_side(other, direction.flip(), Side::Opening);
    points.put_lent_point(p, point_in_line(direction));
    points.link(con, p, direction, interval * ratio);
    points.link(p, other, direction, interval * (1.0 - ratio));
}
