// Insertion of a point into a map, by either rule on torn ones.
#![tactic(auto)]

ghost use Rattle.std.specs.Prelude.{◌≡◌, true};
ghost use Rattle.control_point.specs.Small.{millionth};
ghost use Rattle.insertion.specs.Insert.{insert_told};
ghost use Rattle.insertion.specs.Table.{insertion_table};
ghost use Rattle.t_mesh.specs.Insertion.{kept_after, add_control_point, add_by_rule};
ghost use Rattle.t_mesh.specs.Tmesh.{store_of, is_listed};

use control_point::refusal::Refusal;
use control_point::small::closeness;
use control_point::t_mesh_direction::TmeshDirection;
use insertion::insertion::{Insertion, is_torn};
use mesh_insertion::insert_into;
use t_mesh::add::Added;
use t_mesh::t_mesh::{Position, Tmesh};

// Whether kept knots and their index are still kept after an insertion.
fn kept_after(kept: bool, answer: Result<Insertion, Refusal>) -> bool
    ensures { result ≡ kept_after kept answer }
{
    match answer {
        Ok(Insertion::Done(_, _)) => false,
        Ok(Insertion::Torn(_, _)) => kept,
        Err(_) => kept,
    }
}

// Into the link from con in a direction, at a ratio of its interval.
pub fn add_control_point(
    mut map: Tmesh,
    con: u8,
    direction: TmeshDirection,
    ratio: f64,
    position: Position,
) -> Added
    ensures is { result ≡ add_control_point millionth map con direction ratio position }
    ensures told { insert_told result.answer ≡ insertion_table millionth (store_of map) (is_listed map con) con direction ratio }
{
    let inserted = insert_into(closeness(), map.mesh, con, direction, ratio, position);
    map.mesh = inserted.mesh;
    map.kept = kept_after(map.kept, inserted.answer);
    Added {
        answer: inserted.answer,
        map,
    }
}

// The same, withdrawn where it is torn: the map is then as it was, with its kept knots and their index.
pub fn add_or_withdraw(
    map: Tmesh,
    con: u8,
    direction: TmeshDirection,
    ratio: f64,
    position: Position,
) -> Added
    ensures is { result ≡ add_by_rule true millionth map con direction ratio position }
    ensures told { insert_told result.answer ≡ insertion_table millionth (store_of map) (is_listed map con) con direction ratio }
{
    let mut added = add_control_point(map, con, direction, ratio, position);
    if is_torn(added.answer) {
        added.map = map;
    }
    added
}
