// The walk over a store's links.
ghost use Rattle.std.specs.Prelude.{◌≡◌};
ghost use Rattle.navigation.specs.Table.{walk_table};
ghost use Rattle.navigation.specs.Walk.{walk_told};
ghost use Rattle.store.specs.Store.{navigate_until_con, store_sides};

use crate::store::Store;
use control_point::refusal::Refusal;
use control_point::sides::LentSides;
use control_point::t_mesh_direction::TmeshDirection;
use navigation::walk::{Walk, navigate};

// Steps along travel, and stops at the first point whose watch side is a link.
pub fn navigate_until_con(
    store: Store,
    start: u8,
    travel: TmeshDirection,
    watch: TmeshDirection,
) -> Result<Walk, Refusal>
    ensures is { result ≡ navigate_until_con store start travel watch }
    ensures told { walk_told result ≡ walk_table (store_sides store) store.made start travel watch }
{
    let made = store.made;
    let points = store.points;
    let mut sides = LentSides::blank();
    sides.fill(points);
    navigate(&sides, made, start, travel, watch)
}
