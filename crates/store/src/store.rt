// The store of up to 128 points: making one, reading, and storing a point anew.
ghost use Rattle.std.specs.Prelude.{◌≡◌, cond, ◌<◌, Ok};
ghost use Rattle.control_point.specs.Point.{minus_one};
ghost use Rattle.control_point.specs.Told.{outcome_told, side_told};
ghost use Rattle.control_point.specs.declared.t_mesh_control_point.Side.TheVariants.{Border};
ghost use Rattle.control_point.specs.declared.t_mesh_direction.TmeshDirection.{TmeshDirection};
ghost use Rattle.store.specs.Store.{empty_store, make_loose, read_point, read_side, store_sides, store_point, with_point, done, refused, point_told};
ghost use Rattle.store.specs.Tables.{make_loose_table, read_point_table, read_side_table};

use control_point::refusal::Refusal;
use control_point::sides::wide;
use control_point::t_mesh_control_point::{Side, TmeshControlPoint, is_made, loose_point, side_of};
use control_point::t_mesh_direction::TmeshDirection;

// The first so many points are made.
#[derive(Clone, Copy)]
pub struct Store {
    pub points: [TmeshControlPoint; 128],
    pub made: u8,
}

// What came of a call, and the store after it.
#[derive(Clone, Copy)]
pub struct Changed {
    pub outcome: Result<(), Refusal>,
    pub store: Store,
}

// No point made.
pub fn empty_store() -> Store
    ensures { result ≡ empty_store }
{
    let point = loose_point(0.0);
    Store {
        points: [point; 128],
        made: 0,
    }
}

// One point more, with four borders of one weight.
pub fn make_loose(store: Store, weight: f64) -> Changed
    ensures is { result ≡ make_loose store weight }
    ensures told { outcome_told result.outcome ≡ make_loose_table store }
    ensures borders { result.outcome ≡ Ok tt → ((d : TmeshDirection) → store_sides result.store store.made d ≡ Border weight)
        × (((store_point result.store store.made).s ≡ minus_one) × ((store_point result.store store.made).t ≡ minus_one)) }
{
    let made = store.made;
    if 128 <= made {
        return Changed {
            outcome: Err(Refusal::Full),
            store,
        };
    }
    let mut next = store;
    next.points[wide(made)] = loose_point(weight);
    next.made = made + 1;
    Changed {
        outcome: Ok(()),
        store: next,
    }
}

// The point under a number.
pub fn point_at(store: Store, n: u8) -> TmeshControlPoint
    requires { n < 128 }
    ensures { result ≡ store_point store n }
{
    store.points[wide(n)]
}

// The store with another point under a number.
pub fn with_point(store: Store, n: u8, point: TmeshControlPoint) -> Store
    requires { n < 128 }
    ensures { result ≡ with_point store n point }
{
    let mut next = store;
    next.points[wide(n)] = point;
    next
}

pub fn read_point(store: Store, n: u8) -> Result<TmeshControlPoint, Refusal>
    ensures is { result ≡ read_point store n }
    ensures told { point_told result ≡ read_point_table store n }
{
    let made = store.made;
    if is_made(made, n) {
        Ok(point_at(store, n))
    } else {
        Err(Refusal::NoPoint)
    }
}

pub fn read_side(store: Store, n: u8, direction: TmeshDirection) -> Result<Side, Refusal>
    ensures is { result ≡ read_side store n direction }
    ensures told { side_told result ≡ read_side_table store n direction }
{
    let point = read_point(store, n)?;
    Ok(side_of(point, direction))
}

// The point stored under a number where a test was passed, the refusal where not.
pub fn settle(
    store: Store,
    n: u8,
    passed: bool,
    point: TmeshControlPoint,
    refusal: Refusal,
) -> Changed
    requires { n < 128 }
    ensures { result ≡ cond passed (done (with_point store n point)) (refused store refusal) }
{
    if !passed {
        return Changed {
            outcome: Err(refusal),
            store,
        };
    }
    Changed {
        outcome: Ok(()),
        store: with_point(store, n, point),
    }
}
