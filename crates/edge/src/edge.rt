// A border's weight is set, and a border opened.
ghost use Rattle.std.specs.Prelude.{◌≡◌, Ok};
ghost use Rattle.control_point.specs.Told.{outcome_told};
ghost use Rattle.control_point.specs.declared.t_mesh_control_point.Side.TheVariants.{Border, Opening};
ghost use Rattle.store.specs.Store.{set_edge_con_weight, remove_edge_condition, store_sides};
ghost use Rattle.store.specs.Tables.{set_edge_con_weight_table, remove_edge_condition_table};

use control_point::refusal::Refusal;
use control_point::t_mesh_control_point::{
    Side, is_border, is_made, side_of, side_refusal, with_side,
};
use control_point::t_mesh_direction::TmeshDirection;
use store::store::{Changed, Store, point_at, settle};

// Sets a border's weight.
pub fn set_edge_con_weight(store: Store, n: u8, direction: TmeshDirection, weight: f64) -> Changed
    ensures is { result ≡ set_edge_con_weight store n direction weight }
    ensures told { outcome_told result.outcome ≡ set_edge_con_weight_table store n direction }
    ensures border { result.outcome ≡ Ok tt → store_sides result.store n direction ≡ Border weight }
{
    let made = store.made;
    if !is_made(made, n) {
        return Changed {
            outcome: Err(Refusal::NoPoint),
            store,
        };
    }
    let point = point_at(store, n);
    let side = side_of(point, direction);
    let weighted = with_side(point, direction, Side::Border(weight));
    settle(store, n, is_border(side), weighted, side_refusal(side))
}

// Opens a border.
pub fn remove_edge_condition(store: Store, n: u8, direction: TmeshDirection) -> Changed
    ensures is { result ≡ remove_edge_condition store n direction }
    ensures told { outcome_told result.outcome ≡ remove_edge_condition_table store n direction }
    ensures opens { result.outcome ≡ Ok tt → store_sides result.store n direction ≡ Opening }
{
    let made = store.made;
    if !is_made(made, n) {
        return Changed {
            outcome: Err(Refusal::NoPoint),
            store,
        };
    }
    let point = point_at(store, n);
    let border = is_border(side_of(point, direction));
    let opened = with_side(point, direction, Side::Opening);
    settle(store, n, border, opened, Refusal::Taken)
}
