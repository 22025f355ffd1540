// The insertion of a point into lent points.
#![tactic(auto)]

ghost use Rattle.std.specs.Prelude.{Bool, ◌≡◌, ◌<◌, Ok};
ghost use Rattle.control_point.specs.Sides.{lent_sides};
ghost use Rattle.lent_points.specs.Lent.{lent_points, Room};
ghost use Rattle.insertion.specs.Insert.{checked_link};
ghost use Rattle.insertion.specs.Lent.{Inserts};

use control_point::refusal::Refusal;
use control_point::t_mesh_control_point::LinkEnd;
use control_point::t_mesh_direction::TmeshDirection;
use crossing::cross;
use insertion::insertion::{Insertion, NewSide, answer_of};
use lent_points::LentPoints;
use link_check::check_link;
use placing::place;

// After the checks on the link, which gave its other end: the point is placed, and its two sides across the link are found.
pub fn insert_passed(
    closeness: f64,
    points: &mut LentPoints,
    made: u8,
    con: u8,
    end: LinkEnd,
    direction: TmeshDirection,
    ratio: f64,
) -> Result<Insertion, Refusal>
    requires { ((con < made) × ((end.point < made) × (made < 128))) × Room points.old }
    ensures { let sides = lent_sides points.old.sides in
        let before = lent_points points.old in
        let after = lent_points points.new in
        Room points.new
        × ((listed : Bool) → checked_link closeness ratio listed sides made con direction ≡ Ok end → Inserts closeness before made listed con direction ratio result after) }
{
    place(points, con, end.point, made, direction, end.interval, ratio);
    let f = direction.clockwise();
    let first = cross(closeness, points, made + 1, con, made, f);
    if let NewSide::Tears = first {
        return answer_of(first, NewSide::Stays);
    }
    let second = cross(closeness, points, made + 1, con, made, f.flip());
    answer_of(first, second)
}

// Into lent points, of which so many are made: whatever store's points they were, they are those of the store after the insertion.
pub fn insert_point(
    closeness: f64,
    points: &mut LentPoints,
    made: u8,
    listed: bool,
    con: u8,
    direction: TmeshDirection,
    ratio: f64,
) -> Result<Insertion, Refusal>
    requires { Room points.old }
    ensures { let before = lent_points points.old in
        let after = lent_points points.new in
        Room points.new × Inserts closeness before made listed con direction ratio result after }
{
    let end = check_link(
        closeness,
        &points.sides,
        made,
        listed,
        con,
        direction,
        ratio,
    )?;
    insert_passed(closeness, points, made, con, end, direction, ratio)
}
