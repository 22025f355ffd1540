// The surface at (s, t).
ghost use Rattle.std.specs.Prelude.{◌≡◌};
ghost use Rattle.control_point.specs.Small.{millionth};
ghost use Rattle.surface.specs.Evaluation.{evaluation_told, share_by, answer_by, subs_of, subs_table};

use basis::basis_function;
use control_point::refusal::Refusal;
use knot_vectors::knots::generate_knot_vectors;
use ray::knots::PointKnots;
use surface::evaluation::{Evaluated, Evaluation, Share};
use t_mesh::t_mesh::{Place, Tmesh};

// What a point adds at (s, t), by its knots, its position and its pull.
pub fn share_of(knots: PointKnots, place: Place, s: f64, t: f64) -> Share
    ensures { result ≡ share_by knots place s t }
{
    let across = knots.s;
    let upwards = knots.t;
    let position = place.position;
    let pull = place.pull;
    let weight = basis_function(s, across) * basis_function(t, upwards) * pull;
    Share {
        x: position.x * weight,
        y: position.y * weight,
        z: position.z * weight,
        weight,
    }
}

// The value, where the knots were built.
fn answer_by(outcome: Result<(), Refusal>, value: Evaluation) -> Result<Evaluation, Refusal>
    ensures { result ≡ answer_by outcome value }
{
    match outcome {
        Ok(()) => Ok(value),
        Err(refusal) => Err(refusal),
    }
}

// At (s, t); knots are built only if none are kept. The loop stands where the map is, so that no map is copied for it.
pub fn subs(mut map: Tmesh, s: f64, t: f64) -> Evaluated
    ensures is { result ≡ subs_of millionth map s t }
    ensures told { evaluation_told result.answer ≡ subs_table millionth map s t }
{
    let mut outcome = Ok(());
    if !map.kept {
        let generated = generate_knot_vectors(map);
        outcome = generated.outcome;
        map = generated.map;
    }
    let listed = map.mesh.listed;
    let places = map.mesh.places;
    let mut x = 0.0;
    let mut y = 0.0;
    let mut z = 0.0;
    let mut weight = 0.0;
    for n in 0..128usize {
        if listed[n] {
            let share = share_of(map.knots[n], places[n], s, t);
            x = x + share.x;
            y = y + share.y;
            z = z + share.z;
            weight = weight + share.weight;
        }
    }
    let value = Evaluation {
        x: x / weight,
        y: y / weight,
        z: z / weight,
        weight,
    };
    let answer = answer_by(outcome, value);
    Evaluated { answer, map }
}
