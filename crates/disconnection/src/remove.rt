// Opening a connection, which is a link or a border.
ghost use Rattle.std.specs.Prelude.{ℕ, ◌≡◌, Float, Ok};
ghost use Rattle.control_point.specs.Direction.{flip_of};
ghost use Rattle.control_point.specs.Told.{outcome_told};
ghost use Rattle.control_point.specs.declared.t_mesh_control_point.Side.TheVariants.{Link, Opening};
ghost use Rattle.store.specs.Store.{remove_connection, store_sides};
ghost use Rattle.store.specs.Tables.{remove_connection_table};

use control_point::refusal::Refusal;
use control_point::t_mesh_control_point::{Side, is_border, is_made, side_of, with_side};
use control_point::t_mesh_direction::TmeshDirection;
use store::store::{Changed, Store, point_at, settle, with_point};

// Opens a link at both ends, a border at one.
pub fn remove_connection(store: Store, n: u8, direction: TmeshDirection) -> Changed
    ensures is { result ≡ remove_connection store n direction }
    ensures told { outcome_told result.outcome ≡ remove_connection_table store n direction }
    ensures opens { result.outcome ≡ Ok tt → (store_sides result.store n direction ≡ Opening)
        × ((m : ℕ) (interval : Float) → store_sides store n direction ≡ Link m interval → store_sides result.store m (flip_of direction) ≡ Opening) }
{
    let made = store.made;
    if !is_made(made, n) {
        return Changed {
            outcome: Err(Refusal::NoPoint),
            store,
        };
    }
    let point = point_at(store, n);
    let side = side_of(point, direction);
    let near = with_side(point, direction, Side::Opening);
    let Side::Link(m, _) = side else {
        return settle(store, n, is_border(side), near, Refusal::OpenSide);
    };
    if !is_made(made, m) {
        return Changed {
            outcome: Err(Refusal::NoPoint),
            store,
        };
    }
    let next = with_point(store, n, near);
    let far = with_side(point_at(next, m), direction.flip(), Side::Opening);
    Changed {
        outcome: Ok(()),
        store: with_point(next, m, far),
    }
}
