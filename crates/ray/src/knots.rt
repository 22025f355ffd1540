// The knots of a point.
ghost use Rattle.std.specs.Prelude.{◌≡◌};
ghost use Rattle.control_point.specs.Sides.{lent_sides};
ghost use Rattle.ray.specs.Knots.{two_entries, both_of, five_knots, knots_about, in_turn, no_knots, knots_at, point_knot_vectors, knots_told};
ghost use Rattle.ray.specs.Table.{knots_table};

use crate::ray::cast;
use control_point::refusal::Refusal;
use control_point::sides::LentSides;
use control_point::t_mesh_control_point::is_made;
use control_point::t_mesh_direction::TmeshDirection;
use store::store::Store;

// The knots across, s, and upwards, t.
#[derive(Clone, Copy)]
pub struct PointKnots {
    pub s: [f64; 5],
    pub t: [f64; 5],
}

// Refused, the knots are all 0.0.
#[derive(Clone, Copy)]
pub struct KnotsAnswer {
    pub outcome: Result<(), Refusal>,
    pub knots: PointKnots,
}

// A ray of two entries.
#[derive(Clone, Copy)]
struct TwoEntries {
    outcome: Result<(), Refusal>,
    first: f64,
    second: f64,
}

fn two_entries(
    closeness: f64,
    sides: &LentSides,
    made: u8,
    n: u8,
    direction: TmeshDirection,
) -> TwoEntries
    ensures { result ≡ two_entries closeness (lent_sides sides.now) made n direction }
{
    let mut buffer = [0.0; 2];
    let outcome = cast(closeness, sides, made, n, direction, &mut buffer);
    TwoEntries {
        outcome,
        first: buffer[0],
        second: buffer[1],
    }
}

// Two knots below the centre, and two above.
fn five_knots(centre: f64, below: TwoEntries, above: TwoEntries) -> [f64; 5]
    ensures { result ≡ five_knots centre (both_of below) (both_of above) }
{
    let under = centre - below.first;
    let over = centre + above.first;
    [
        under - below.second,
        under,
        centre,
        over,
        over + above.second,
    ]
}

// By the entries of the four rays.
fn knots_about(
    s: f64,
    t: f64,
    up: TwoEntries,
    right: TwoEntries,
    down: TwoEntries,
    left: TwoEntries,
) -> KnotsAnswer
    ensures { result ≡ knots_about s t (both_of up) (both_of right) (both_of down) (both_of left) }
{
    let across = five_knots(s, left, right);
    let upwards = five_knots(t, down, up);
    KnotsAnswer {
        outcome: Ok(()),
        knots: PointKnots {
            s: across,
            t: upwards,
        },
    }
}

// No knots, and why.
fn no_knots(outcome: Result<(), Refusal>) -> KnotsAnswer
    ensures { result ≡ no_knots outcome }
{
    KnotsAnswer {
        outcome,
        knots: PointKnots {
            s: [0.0; 5],
            t: [0.0; 5],
        },
    }
}

// The first refusal of two outcomes.
fn in_turn(first: Result<(), Refusal>, second: Result<(), Refusal>) -> Result<(), Refusal>
    ensures { result ≡ in_turn first second }
{
    match first {
        Ok(()) => second,
        Err(refusal) => Err(refusal),
    }
}

// The first refusal of the four rays.
fn outcome_of(
    up: TwoEntries,
    right: TwoEntries,
    down: TwoEntries,
    left: TwoEntries,
) -> Result<(), Refusal>
    ensures { result ≡ in_turn up.outcome (in_turn right.outcome (in_turn down.outcome left.outcome)) }
{
    let first = up.outcome;
    let second = right.outcome;
    let third = down.outcome;
    let fourth = left.outcome;
    in_turn(first, in_turn(second, in_turn(third, fourth)))
}

// Of the point of a number and coordinates: four rays of two entries, in the order of the directions.
pub fn knots_at(closeness: f64, sides: &LentSides, made: u8, n: u8, s: f64, t: f64) -> KnotsAnswer
    ensures { result ≡ knots_at closeness (lent_sides sides.now) made n s t }
{
    let direction = TmeshDirection::Up;
    let up = two_entries(closeness, sides, made, n, direction);
    let direction = TmeshDirection::Right;
    let right = two_entries(closeness, sides, made, n, direction);
    let direction = TmeshDirection::Down;
    let down = two_entries(closeness, sides, made, n, direction);
    let direction = TmeshDirection::Left;
    let left = two_entries(closeness, sides, made, n, direction);
    let outcome = outcome_of(up, right, down, left);
    let Ok(()) = outcome else {
        return no_knots(outcome);
    };
    knots_about(s, t, up, right, down, left)
}

// The same on a store.
pub fn point_knot_vectors(closeness: f64, store: Store, n: u8) -> KnotsAnswer
    ensures is { result ≡ point_knot_vectors closeness store n }
    ensures told { knots_told result ≡ knots_table closeness store n }
{
    let made = store.made;
    if !is_made(made, n) {
        return no_knots(Err(Refusal::NoPoint));
    }
    let points = store.points;
    let point = points[n as usize];
    let mut sides = LentSides::blank();
    sides.fill(points);
    knots_at(closeness, &sides, made, n, point.s, point.t)
}
