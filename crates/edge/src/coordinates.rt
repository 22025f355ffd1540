// The coordinates of a point that has only borders.
ghost use Rattle.std.specs.Prelude.{◌≡◌, ◌&&◌};
ghost use Rattle.control_point.specs.Point.{is_border};
ghost use Rattle.control_point.specs.Told.{outcome_told};
ghost use Rattle.store.specs.Store.{set_knot_coordinates, all_borders, coordinated};
ghost use Rattle.store.specs.Tables.{set_knot_coordinates_table};

use control_point::refusal::Refusal;
use control_point::t_mesh_control_point::{Side, TmeshControlPoint, is_border, is_made};
use store::store::{Changed, Store, point_at, settle};

fn both_borders(side: Side, other: Side) -> bool
    ensures { result ≡ (is_border side && is_border other) }
{
    is_border(side) && is_border(other)
}

fn all_borders(point: TmeshControlPoint) -> bool
    ensures { result ≡ all_borders point }
{
    let up = point.up;
    let right = point.right;
    let down = point.down;
    let left = point.left;
    both_borders(up, right) && both_borders(down, left)
}

fn at_coordinates(point: TmeshControlPoint, s: f64, t: f64) -> TmeshControlPoint
    ensures { result ≡ coordinated point s t }
{
    let mut moved = point;
    moved.s = s;
    moved.t = t;
    moved
}

// Sets the coordinates of a point that has only borders.
pub fn set_knot_coordinates(store: Store, n: u8, s: f64, t: f64) -> Changed
    ensures is { result ≡ set_knot_coordinates store n s t }
    ensures told { outcome_told result.outcome ≡ set_knot_coordinates_table store n }
{
    let made = store.made;
    if !is_made(made, n) {
        return Changed {
            outcome: Err(Refusal::NoPoint),
            store,
        };
    }
    let point = point_at(store, n);
    let moved = at_coordinates(point, s, t);
    settle(store, n, all_borders(point), moved, Refusal::Taken)
}
