// The sides of all points as three arrays of numbers, to be lent: kind (0 link, 1 border, 2 opening), number and interval.
ghost use Rattle.std.specs.Prelude.{◌≡◌, ◌<◌};
ghost use Rattle.control_point.specs.Sides.{place, Full, lent_sides, sides_of, sides_with, sides_with_point, kind_of, linked_of, interval_of, side_at};

use crate::refusal::Refusal;
use crate::t_mesh_control_point::{Side, TmeshControlPoint, is_made};
use crate::t_mesh_direction::TmeshDirection;

pub fn wide(n: u8) -> usize
    ensures { result ≡ n }
{
    n as usize
}

// Where a side stands in the arrays.
fn place_of(n: u8, direction: TmeshDirection) -> usize
    requires { n < 128 }
    ensures { (result ≡ place n direction) × (result < 512) }
{
    wide(n) * 4 + wide(direction.number())
}

fn kind_of(side: Side) -> u8
    ensures { result ≡ kind_of side }
{
    match side {
        Side::Link(_, _) => 0,
        Side::Border(_) => 1,
        Side::Opening => 2,
    }
}

fn linked_of(side: Side) -> u8
    ensures { result ≡ linked_of side }
{
    match side {
        Side::Link(n, _) => n,
        Side::Border(_) => 0,
        Side::Opening => 0,
    }
}

fn interval_of(side: Side) -> f64
    ensures { result ≡ interval_of side }
{
    match side {
        Side::Link(_, interval) => interval,
        Side::Border(weight) => weight,
        Side::Opening => 0.0,
    }
}

// Four places a point. Fixed memory: the arrays take 5,120 bytes, which a C call has on its stack twice; as an array of `Side` they would take 8,192.
#[derive(Clone, Copy)]
pub struct LentSides {
    pub kinds: [u8; 512],
    pub numbers: [u8; 512],
    pub intervals: [f64; 512],
}

impl LentSides {
    // Every side a link of point 0 to itself at 0.0: what stands in the arrays before they are filled means nothing.
    pub fn blank() -> LentSides
        ensures { Full result }
    {
        LentSides {
            kinds: [0; 512],
            numbers: [0; 512],
            intervals: [0.0; 512],
        }
    }

    // The sides of 128 points.
    pub fn of_points(points: [TmeshControlPoint; 128]) -> LentSides
        ensures { lent_sides result ≡ sides_of points }
    {
        let mut sides = LentSides::blank();
        sides.fill(points);
        sides
    }

    // A side read back. A number of 128 or more has openings.
    pub fn side_at(&self, n: u8, direction: TmeshDirection) -> Side
        ensures { result ≡ lent_sides self.now n direction }
    {
        if 128 <= n {
            return Side::Opening;
        }
        let i = place_of(n, direction);
        let kind = self.kinds[i];
        if kind == 0 {
            return Side::Link(self.numbers[i], self.intervals[i]);
        }
        if kind == 1 {
            return Side::Border(self.intervals[i]);
        }
        Side::Opening
    }

    // A side of a point that may not have been made.
    pub fn made_side_at(&self, made: u8, n: u8, direction: TmeshDirection) -> Result<Side, Refusal>
        ensures { result ≡ side_at (lent_sides self.now) made n direction }
    {
        if is_made(made, n) {
            Ok(self.side_at(n, direction))
        } else {
            Err(Refusal::NoPoint)
        }
    }

    // One side, at its place.
    pub fn put_side(&mut self, n: u8, direction: TmeshDirection, side: Side)
        requires { (n < 128) × Full self.old }
        ensures { Full self.new × (lent_sides self.new ≡ sides_with (lent_sides self.old) n direction side) }
    {
        let i = place_of(n, direction);
        self.kinds[i] = kind_of(side);
        self.numbers[i] = linked_of(side);
        self.intervals[i] = interval_of(side);
    }

    // All four sides of a point.
    pub fn put_point(&mut self, n: u8, point: TmeshControlPoint)
        requires { (n < 128) × Full self.old }
        ensures { Full self.new × (lent_sides self.new ≡ sides_with_point (lent_sides self.old) n point) }
    {
        let up = point.up;
        let right = point.right;
        let down = point.down;
        let left = point.left;
        self.put_side(n, TmeshDirection::Up, up);
        self.put_side(n, TmeshDirection::Right, right);
        self.put_side(n, TmeshDirection::Down, down);
        self.put_side(n, TmeshDirection::Left, left);
    }

    // The sides of 128 points, over what stands there.
    pub fn fill(&mut self, points: [TmeshControlPoint; 128])
        requires { Full self.old }
        ensures { Full self.new × (lent_sides self.new ≡ sides_of points) }
    {
        for n in 0..128u8 {
            let point = points[n as usize];
            self.put_point(n, point);
        }
    }
}
