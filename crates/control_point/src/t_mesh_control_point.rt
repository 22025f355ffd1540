// A control point of a mesh: its four sides and its knot coordinates.
ghost use Rattle.std.specs.Prelude.{◌≡◌};
ghost use Rattle.control_point.specs.Point.{is_link, is_border, is_opening, side_refusal, side_of, with_side, moved_across, moved_upwards, moved_from, loose_point, is_made};

use crate::refusal::Refusal;
use crate::t_mesh_direction::TmeshDirection;

// A side is a link to a point with its interval, a border with its weight, or an opening.
#[derive(Clone, Copy)]
pub enum Side {
    Link(u8, f64),
    Border(f64),
    Opening,
}

// The other end of a link: its point, and the link's interval.
#[derive(Clone, Copy, Debug)]
pub struct LinkEnd {
    pub point: u8,
    pub interval: f64,
}

// The knot coordinates are s, across, and t, upwards.
#[derive(Clone, Copy)]
pub struct TmeshControlPoint {
    pub up: Side,
    pub right: Side,
    pub down: Side,
    pub left: Side,
    pub s: f64,
    pub t: f64,
}

pub fn is_link(side: Side) -> bool
    ensures { result ≡ is_link side }
{
    matches!(side, Side::Link(_, _))
}

pub fn is_border(side: Side) -> bool
    ensures { result ≡ is_border side }
{
    matches!(side, Side::Border(_))
}

pub fn is_opening(side: Side) -> bool
    ensures { result ≡ is_opening side }
{
    matches!(side, Side::Opening)
}

// The refusal that speaks of what a side is.
pub fn side_refusal(side: Side) -> Refusal
    ensures { result ≡ side_refusal side }
{
    match side {
        Side::Link(_, _) => Refusal::Taken,
        Side::Border(_) => Refusal::BorderSide,
        Side::Opening => Refusal::OpenSide,
    }
}

pub fn side_of(point: TmeshControlPoint, direction: TmeshDirection) -> Side
    ensures { result ≡ side_of point direction }
{
    match direction {
        TmeshDirection::Up => point.up,
        TmeshDirection::Right => point.right,
        TmeshDirection::Down => point.down,
        TmeshDirection::Left => point.left,
    }
}

// The point with another side.
pub fn with_side(
    point: TmeshControlPoint,
    direction: TmeshDirection,
    side: Side,
) -> TmeshControlPoint
    ensures { result ≡ with_side point direction side }
{
    let up = point.up;
    let right = point.right;
    let down = point.down;
    let left = point.left;
    let s = point.s;
    let t = point.t;
    match direction {
        TmeshDirection::Up => TmeshControlPoint {
            up: side,
            right,
            down,
            left,
            s,
            t,
        },
        TmeshDirection::Right => TmeshControlPoint {
            up,
            right: side,
            down,
            left,
            s,
            t,
        },
        TmeshDirection::Down => TmeshControlPoint {
            up,
            right,
            down: side,
            left,
            s,
            t,
        },
        TmeshDirection::Left => TmeshControlPoint {
            up,
            right,
            down,
            left: side,
            s,
            t,
        },
    }
}

// A coordinate across, moved in a direction by an interval.
pub fn moved_across(s: f64, direction: TmeshDirection, interval: f64) -> f64
    ensures { result ≡ moved_across s direction interval }
{
    match direction {
        TmeshDirection::Up => s,
        TmeshDirection::Right => s + interval,
        TmeshDirection::Down => s,
        TmeshDirection::Left => s - interval,
    }
}

// A coordinate upwards, moved in a direction by an interval.
pub fn moved_upwards(t: f64, direction: TmeshDirection, interval: f64) -> f64
    ensures { result ≡ moved_upwards t direction interval }
{
    match direction {
        TmeshDirection::Up => t + interval,
        TmeshDirection::Right => t,
        TmeshDirection::Down => t - interval,
        TmeshDirection::Left => t,
    }
}

// The point at the coordinates of another, moved in a direction by an interval.
pub fn moved_from(
    point: TmeshControlPoint,
    from: TmeshControlPoint,
    direction: TmeshDirection,
    interval: f64,
) -> TmeshControlPoint
    ensures { result ≡ moved_from point from direction interval }
{
    let mut moved = point;
    moved.s = moved_across(from.s, direction, interval);
    moved.t = moved_upwards(from.t, direction, interval);
    moved
}

// A new point: four borders of one weight, at (-1, -1).
pub fn loose_point(weight: f64) -> TmeshControlPoint
    ensures { result ≡ loose_point weight }
{
    TmeshControlPoint {
        up: Side::Border(weight),
        right: Side::Border(weight),
        down: Side::Border(weight),
        left: Side::Border(weight),
        s: -1.0,
        t: -1.0,
    }
}

// Whether n numbers a point, where so many are made; a store has room for 128.
pub fn is_made(made: u8, n: u8) -> bool
    ensures { result ≡ is_made made n }
{
    n < made && n < 128
}
