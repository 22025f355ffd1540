// Connecting two points.
ghost use Rattle.std.specs.Prelude.{◌≡◌, ◌&&◌, Ok};
ghost use Rattle.control_point.specs.Direction.{flip_of};
ghost use Rattle.control_point.specs.Point.{is_made, is_opening, side_of};
ghost use Rattle.connection.specs.Connect.{may_connect};
ghost use Rattle.control_point.specs.Told.{outcome_told};
ghost use Rattle.control_point.specs.declared.t_mesh_control_point.Side.TheVariants.{Link};
ghost use Rattle.store.specs.Store.{connect_points, store_sides};
ghost use Rattle.store.specs.Tables.{connect_table};

use control_point::refusal::Refusal;
use control_point::t_mesh_control_point::{
    Side, TmeshControlPoint, is_made, is_opening, moved_from, side_of, with_side,
};
use control_point::t_mesh_direction::TmeshDirection;
use store::store::{Changed, Store, point_at, with_point};

fn both_made(made: u8, first: u8, other: u8) -> bool
    ensures { result ≡ (is_made made first && is_made made other) }
{
    is_made(made, first) && is_made(made, other)
}

// Whether the side of one point in a direction and the facing side of another are openings.
fn facing_openings(
    near: TmeshControlPoint,
    far: TmeshControlPoint,
    direction: TmeshDirection,
) -> bool
    ensures { result ≡ (is_opening (side_of near direction) && is_opening (side_of far (flip_of direction))) }
{
    is_opening(side_of(near, direction)) && is_opening(side_of(far, direction.flip()))
}

// Whether two made points may be connected.
fn may_connect(
    first: u8,
    other: u8,
    near: TmeshControlPoint,
    far: TmeshControlPoint,
    direction: TmeshDirection,
) -> Result<(), Refusal>
    ensures { result ≡ may_connect first other near far direction }
{
    if first == other {
        return Err(Refusal::Itself);
    }
    if !facing_openings(near, far, direction) {
        return Err(Refusal::Taken);
    }
    Ok(())
}

// Links the first point's side in a direction with the other's facing side, and moves the other there.
pub fn connect(
    store: Store,
    first: u8,
    other: u8,
    direction: TmeshDirection,
    interval: f64,
) -> Changed
    ensures is { result ≡ connect_points store first other direction interval }
    ensures told { outcome_told result.outcome ≡ connect_table store first other direction }
    ensures links { result.outcome ≡ Ok tt → (store_sides result.store first direction ≡ Link other interval) × (store_sides result.store other (flip_of direction) ≡ Link first interval) }
{
    let made = store.made;
    if !both_made(made, first, other) {
        return Changed {
            outcome: Err(Refusal::NoPoint),
            store,
        };
    }
    let near = point_at(store, first);
    let far = point_at(store, other);
    let outcome = may_connect(first, other, near, far, direction);
    let Ok(()) = outcome else {
        return Changed { outcome, store };
    };
    let ahead = with_side(near, direction, Side::Link(other, interval));
    let back = with_side(far, direction.flip(), Side::Link(first, interval));
    let moved = moved_from(back, near, direction, interval);
    Changed {
        outcome: Ok(()),
        store: with_point(with_point(store, first, ahead), other, moved),
    }
}
