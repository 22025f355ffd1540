// A side of a new point across the link that it stands in.
#![tactic(auto)]

ghost use Rattle.std.specs.Prelude.{◌≡◌, ◌<◌};
ghost use Rattle.control_point.specs.Sides.{lent_sides};
ghost use Rattle.lent_points.specs.Lent.{lent_points, Room};
ghost use Rattle.insertion.specs.Insert.{new_side};
ghost use Rattle.insertion.specs.Lent.{points_with_new};

use control_point::t_mesh_control_point::Side;
use control_point::t_mesh_direction::TmeshDirection;
use insertion::insertion::NewSide;
use lent_points::LentPoints;
use search::search::find_inferred_connection;

// The side f of p: con's border, or else an opening, and the link that is inferred there.
pub fn cross(
    closeness: f64,
    points: &mut LentPoints,
    made: u8,
    con: u8,
    p: u8,
    f: TmeshDirection,
) -> NewSide
    requires { (p < 128) × Room points.old }
    ensures { let before = lent_points points.old in
        let after = lent_points points.new in
        (result ≡ new_side closeness (lent_sides points.old.sides) made con p f)
        × (Room points.new × (after ≡ points_with_new before p f result)) }
{
    if let Side::Border(weight) = points.sides.side_at(con, f) {
        points.sides.put_side(p, f, Side::Border(weight));
        return NewSide::Takes(weight);
    }
    points.sides.put_side(p, f, Side::Opening);
    match find_inferred_connection(closeness, &points.sides, made, p, f) {
        Ok(Some(end)) => {
            points.link(p, end.point, f, end.interval);
            NewSide::Joins(end.point, end.interval)
        }
        Ok(None) => NewSide::Opens,
        Err(_) => NewSide::Tears,
    }
}
