// The walk over links.
ghost use Rattle.std.specs.Prelude.{◌≡◌};
ghost use Rattle.control_point.specs.Sides.{lent_sides};
ghost use Rattle.navigation.specs.Walk.{walk_of};

use control_point::refusal::Refusal;
use control_point::sides::LentSides;
use control_point::t_mesh_control_point::{Side, is_link, is_made, side_refusal};
use control_point::t_mesh_direction::TmeshDirection;

// Where a walk ends: its point, the sum of the intervals and the count of moves.
#[derive(Clone, Copy, Debug)]
pub struct Walk {
    pub at: u8,
    pub sum: f64,
    pub moves: u8,
}

// Steps along travel, and stops at the first point whose watch side is a link.
pub fn navigate(
    sides: &LentSides,
    made: u8,
    start: u8,
    travel: TmeshDirection,
    watch: TmeshDirection,
) -> Result<Walk, Refusal>
    ensures { result ≡ walk_of (lent_sides sides.now) made start travel watch }
{
    if !is_made(made, start) {
        return Err(Refusal::NoPoint);
    }
    let side = sides.side_at(start, travel);
    let Side::Link(n, k) = side else {
        return Err(side_refusal(side));
    };
    let mut at = n;
    let mut sum = k;
    let mut moves: u8 = 1;
    loop {
        if !is_made(made, at) {
            return Err(Refusal::NoPoint);
        }
        if is_link(sides.side_at(at, watch)) {
            return Ok(Walk { at, sum, moves });
        }
        let side = sides.side_at(at, travel);
        let Side::Link(n, k) = side else {
            return Err(side_refusal(side));
        };
        if made <= moves {
            return Err(Refusal::Ring);
        }
        at = n;
        sum = sum + k;
        moves += 1;
    }
}
