// The knots of all listed points, and their index.
ghost use Rattle.std.specs.Prelude.{◌≡◌};
ghost use Rattle.control_point.specs.Sides.{lent_sides};
ghost use Rattle.control_point.specs.Small.{millionth};
ghost use Rattle.control_point.specs.Told.{outcome_told};
ghost use Rattle.store.specs.Store.{store_sides};
ghost use Rattle.t_mesh.specs.Tmesh.{store_of};
ghost use Rattle.knot_vectors.specs.Knots.{all_knots, held_knots, generate_knot_vectors};
ghost use Rattle.knot_vectors.specs.Table.{generated_table};

use control_point::refusal::Refusal;
use control_point::sides::LentSides;
use control_point::small::closeness;
use grid_index::index_of;
use ray::knots::{PointKnots, knots_at};
use t_mesh::t_mesh::Tmesh;

// What came of building them, and the map after it.
#[derive(Clone, Copy)]
pub struct Generated {
    pub outcome: Result<(), Refusal>,
    pub map: Tmesh,
}

// What came of it, and the rows of all numbers; refused, those that stood before.
#[derive(Clone, Copy)]
struct ListedKnots {
    outcome: Result<(), Refusal>,
    knots: [PointKnots; 128],
}

// Over the lent sides of the map's own points.
fn listed_knots(closeness: f64, sides: &LentSides, map: Tmesh) -> ListedKnots
    requires { lent_sides sides.now ≡ store_sides (store_of map) }
    ensures { result ≡ held_knots map.knots (all_knots closeness map) }
{
    let made = map.mesh.made;
    let points = map.mesh.points;
    let listed = map.mesh.listed;
    let mut knots = map.knots;
    for n in 0..128u8 {
        if listed[n as usize] {
            let point = points[n as usize];
            let built = knots_at(closeness, sides, made, n, point.s, point.t);
            let outcome = built.outcome;
            if let Err(refusal) = outcome {
                let before = map.knots;
                return ListedKnots {
                    outcome: Err(refusal),
                    knots: before,
                };
            }
            let own = built.knots;
            knots[n as usize] = own;
        }
    }
    ListedKnots {
        outcome: Ok(()),
        knots,
    }
}

pub fn generate_knot_vectors(mut map: Tmesh) -> Generated
    ensures is { result ≡ generate_knot_vectors millionth map }
    ensures told { outcome_told result.outcome ≡ generated_table millionth map }
{
    let points = map.mesh.points;
    let mut sides = LentSides::blank();
    sides.fill(points);
    let built = listed_knots(closeness(), &sides, map);
    let outcome = built.outcome;
    if let Err(refusal) = outcome {
        return Generated {
            outcome: Err(refusal),
            map,
        };
    }
    let knots = built.knots;
    let listed = map.mesh.listed;
    let index = index_of(listed, knots);
    map.kept = true;
    map.knots = knots;
    map.index = index;
    Generated {
        outcome: Ok(()),
        map,
    }
}
