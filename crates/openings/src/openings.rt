// The openings of a store's made points, listed by the number of the point, and for a point Up, Right, Down, Left.
ghost use Rattle.std.specs.Prelude.{◌≡◌, ◌&&◌, []};
ghost use Rattle.control_point.specs.Direction.{direction_numbered};
ghost use Rattle.control_point.specs.Point.{is_made, is_opening, side_of};
ghost use Rattle.openings.specs.Openings.{openings_of, openings_answer};

use crate::list::Openings;
use control_point::t_mesh_control_point::{TmeshControlPoint, is_made, is_opening, side_of};
use control_point::t_mesh_direction::TmeshDirection;
use store::store::Store;

#[tactic(auto, using(crate::proofs::OpeningsLaws::answer_none))]
fn no_openings() -> Openings
    ensures { result ≡ openings_answer [] }
{
    Openings {
        count: 0,
        points: [0; 512],
        directions: [0; 512],
    }
}

// Whether a point is made, and its side in the direction of a number is an opening.
fn is_open(made: u8, n: u8, point: TmeshControlPoint, direction: u8) -> bool
    ensures { result ≡ (is_made made n && is_opening (side_of point (direction_numbered direction))) }
{
    is_made(made, n) && is_opening(side_of(point, TmeshDirection::numbered(direction)))
}

// The openings of the made points. A side's place is four times its point's number and its direction's.
#[tactic(auto, using(crate::proofs::OpeningsLaws::list_so_far))]
pub fn openings(store: Store) -> Openings
    ensures { result ≡ openings_answer (openings_of store) }
{
    let made = store.made;
    let mut list = no_openings();
    for place in 0..512u16 {
        let n = (place / 4) as u8;
        let point = store.points[n as usize];
        let direction = (place % 4) as u8;
        if is_open(made, n, point, direction) {
            let at = list.count as usize;
            list.points[at] = n;
            list.directions[at] = direction;
            list.count += 1;
        }
    }
    list
}
