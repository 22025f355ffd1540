// The approach of a march to its ray.
ghost use Rattle.std.specs.Prelude.{◌≡◌};
ghost use Rattle.control_point.specs.Sides.{lent_sides};
ghost use Rattle.ray_approach.specs.Approach.{approach_of};

use control_point::refusal::Refusal;
use control_point::sides::LentSides;
use control_point::small::so_small;
use control_point::t_mesh_direction::TmeshDirection;
use navigation::walk::navigate;

#[derive(Clone, Copy, Debug)]
pub enum Approach {
    // The next point lies on the ray: the point before it.
    Aligned(u8),
    // The next point lies beyond the ray: the point before it, and its distance.
    Crossed(u8, f64),
}

// Towards the ray, from a point at a distance.
pub fn approach_ray(
    closeness: f64,
    sides: &LentSides,
    made: u8,
    direction: TmeshDirection,
    start: u8,
    distance: f64,
) -> Result<Approach, Refusal>
    ensures { result ≡ approach_of closeness (lent_sides sides.now) made direction start distance }
{
    let clockwise = direction.clockwise();
    let mut at = start;
    let mut left = distance;
    for rounds in 0..made {
        let walk = navigate(sides, made, at, clockwise, direction)?;
        let difference = left - walk.sum;
        if so_small(closeness, difference) {
            return Ok(Approach::Aligned(at));
        }
        if difference < 0.0 {
            return Ok(Approach::Crossed(at, left));
        }
        at = walk.at;
        left = difference;
    }
    Err(Refusal::Ring)
}
