// The knots of a point of a lent mesh, computed anew.
#![tactic(auto)]

ghost use Rattle.std.specs.Prelude.{◌≡◌, ◌<◌};
ghost use Rattle.control_point.specs.Sides.{lent_sides};
ghost use Rattle.lent_points.specs.Lent.{across_at, upwards_at};
ghost use Rattle.ray.specs.Knots.{knots_at};

use lent_points::LentPoints;
use ray::knots::{KnotsAnswer, knots_at};

// Of the point under a number.
pub fn knots_under(closeness: f64, points: &LentPoints, made: u8, n: u8) -> KnotsAnswer
    requires { n < 128 }
    ensures { result ≡ knots_at closeness (lent_sides points.now.sides) made n (across_at points.now.coordinates n) (upwards_at points.now.coordinates n) }
{
    knots_at(
        closeness,
        &points.sides,
        made,
        n,
        points.across_at(n),
        points.upwards_at(n),
    )
}
