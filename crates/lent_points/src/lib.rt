// The points of a store, lent as arrays of numbers: their sides, and their coordinates in a fourth array, s and t of each in turn. A number
// below 128 is a premise, and for a change that the arrays have their lengths, which their types meet: only this repository calls these functions.
#![tactic(auto)]

ghost use Rattle.std.specs.Prelude.{◌≡◌, ◌<◌};
ghost use Rattle.lent_points.specs.Lent.{lent_points, points_with, points_linked, Room, across_at, upwards_at, coordinates_with};

use control_point::sides::{LentSides, wide};
use control_point::t_mesh_control_point::{Side, TmeshControlPoint, moved_across, moved_upwards};
use control_point::t_mesh_direction::TmeshDirection;

#[derive(Clone, Copy)]
pub struct LentPoints {
    pub sides: LentSides,
    pub coordinates: [f64; 256],
}

impl LentPoints {
    // What stands in the arrays before they are filled means nothing.
    pub fn blank() -> LentPoints
        ensures { Room result }
    {
        LentPoints {
            sides: LentSides::blank(),
            coordinates: [0.0; 256],
        }
    }

    // The coordinates of the point under a number.
    pub fn across_at(&self, n: u8) -> f64
        requires { n < 128 }
        ensures { result ≡ across_at self.now.coordinates n }
    {
        self.coordinates[wide(n) * 2]
    }

    pub fn upwards_at(&self, n: u8) -> f64
        requires { n < 128 }
        ensures { result ≡ upwards_at self.now.coordinates n }
    {
        self.coordinates[wide(n) * 2 + 1]
    }

    fn put_coordinates(&mut self, n: u8, s: f64, t: f64)
        requires { (n < 128) × Room self.old }
        ensures sides { self.new.sides ≡ self.old.sides }
        ensures coordinates { self.new.coordinates ≡ coordinates_with self.old.coordinates n s t }
    {
        let i = wide(n) * 2;
        self.coordinates[i] = s;
        self.coordinates[i + 1] = t;
    }

    // The point under a number.
    pub fn lent_point(&self, n: u8) -> TmeshControlPoint
        requires { n < 128 }
        ensures { result ≡ lent_points self.now n }
    {
        TmeshControlPoint {
            up: self.sides.side_at(n, TmeshDirection::Up),
            right: self.sides.side_at(n, TmeshDirection::Right),
            down: self.sides.side_at(n, TmeshDirection::Down),
            left: self.sides.side_at(n, TmeshDirection::Left),
            s: self.across_at(n),
            t: self.upwards_at(n),
        }
    }

    // Another point under a number.
    pub fn put_lent_point(&mut self, n: u8, point: TmeshControlPoint)
        requires { (n < 128) × Room self.old }
        ensures { Room self.new × (lent_points self.new ≡ points_with (lent_points self.old) n point) }
    {
        self.sides.put_point(n, point);
        self.put_coordinates(n, point.s, point.t);
    }

    // Two points linked by an interval: both facing sides, and the other's coordinates the first's, moved by it.
    pub fn link(&mut self, first: u8, other: u8, direction: TmeshDirection, interval: f64)
        requires { ((first < 128) × ((other < 128) × (other ≡ first → ⊥))) × Room self.old }
        ensures { Room self.new × (lent_points self.new ≡ points_linked (lent_points self.old) first other direction interval) }
    {
        self.sides
            .put_side(first, direction, Side::Link(other, interval));
        self.sides
            .put_side(other, direction.flip(), Side::Link(first, interval));
        let s = moved_across(self.across_at(first), direction, interval);
        let t = moved_upwards(self.upwards_at(first), direction, interval);
        self.put_coordinates(other, s, t);
    }
}
