// The checks before an insertion, in order.
#![tactic(auto)]

ghost use Rattle.std.specs.Prelude.{◌≡◌, Ok};
ghost use Rattle.control_point.specs.Direction.{flip_of};
ghost use Rattle.control_point.specs.Sides.{side_at, lent_sides};
ghost use Rattle.insertion.specs.Insert.{checked_intervals, checked_facing, checked_link};

use control_point::refusal::Refusal;
use control_point::sides::LentSides;
use control_point::small::so_small;
use control_point::t_mesh_control_point::{LinkEnd, Side, is_made, side_refusal};
use control_point::t_mesh_direction::TmeshDirection;
use float64::in_unit;

#[tactic(auto, unfolding(insertion::specs::Insert::checked_intervals))]
fn check_intervals(
    closeness: f64,
    made: u8,
    other: u8,
    interval: f64,
    facing: f64,
) -> Result<LinkEnd, Refusal>
    ensures { result ≡ checked_intervals closeness made other interval facing }
{
    if !so_small(closeness, interval - facing) {
        return Err(Refusal::Interval);
    }
    if 128 <= made {
        return Err(Refusal::Full);
    }
    Ok(LinkEnd {
        point: other,
        interval,
    })
}

// The facing side of the other point.
fn check_facing(
    closeness: f64,
    made: u8,
    other: u8,
    interval: f64,
    facing: Side,
) -> Result<LinkEnd, Refusal>
    ensures { result ≡ checked_facing closeness made other interval (Ok facing) }
{
    match facing {
        Side::Link(_, stored) => check_intervals(closeness, made, other, interval, stored),
        Side::Border(weight) => check_intervals(closeness, made, other, interval, weight),
        Side::Opening => Err(Refusal::OpenSide),
    }
}

// The checks of a link to another point: it is made, and the side that faces con is right.
fn check_other(
    closeness: f64,
    sides: &LentSides,
    made: u8,
    other: u8,
    interval: f64,
    direction: TmeshDirection,
) -> Result<LinkEnd, Refusal>
    ensures { result ≡ checked_facing closeness made other interval (side_at (lent_sides sides.now) made other (flip_of direction)) }
{
    if !is_made(made, other) {
        return Err(Refusal::NoPoint);
    }
    let back = direction.flip();
    let facing = sides.side_at(other, back);
    check_facing(closeness, made, other, interval, facing)
}

// All checks, over lent sides. Nothing is read before con is known to be made, and the other point only where con has a link.
#[tactic(auto, unfolding(insertion::specs::Insert::checked))]
pub fn check_link(
    closeness: f64,
    sides: &LentSides,
    made: u8,
    listed: bool,
    con: u8,
    direction: TmeshDirection,
    ratio: f64,
) -> Result<LinkEnd, Refusal>
    ensures { result ≡ checked_link closeness ratio listed (lent_sides sides.now) made con direction }
{
    if !in_unit(ratio) {
        return Err(Refusal::Ratio);
    }
    if !listed {
        return Err(Refusal::Foreign);
    }
    if !is_made(made, con) {
        return Err(Refusal::NoPoint);
    }
    let side = sides.side_at(con, direction);
    let Side::Link(other, interval) = side else {
        return Err(side_refusal(side));
    };
    check_other(closeness, sides, made, other, interval, direction)
}
