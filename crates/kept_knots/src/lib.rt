// A map with its knots and their index kept.
#![tactic(auto)]

ghost use Rattle.std.specs.Prelude.{◌≡◌};
ghost use Rattle.control_point.specs.Small.{millionth};
ghost use Rattle.surface.specs.Evaluation.{with_knots};

use knot_vectors::knots::{Generated, generate_knot_vectors};
use t_mesh::t_mesh::Tmesh;

// Those kept, or those built; or why there are none, and the map as it was.
pub fn with_knots(map: Tmesh) -> Generated
    ensures { result ≡ with_knots millionth map }
{
    if map.kept {
        return Generated {
            outcome: Ok(()),
            map,
        };
    }
    generate_knot_vectors(map)
}
