// A map lent for evaluation: the knots, the places and the listing of its points. A place is a row of four floats: x, y, z and the pull.
#![tactic(auto)]

ghost use Rattle.std.specs.Prelude.{◌≡◌, ◌<◌, set};
ghost use Rattle.control_point.specs.Small.{millionth};
ghost use Rattle.control_point.specs.Told.{outcome_told};
ghost use Rattle.surface.specs.Evaluation.{share_by, value_of};
ghost use Rattle.lent_surface.specs.Lent.{place_row, lent_place, Full, lent, lent_knots, held_map, lent_of, none_lent, lend_of, lend_table};

use basis::basis_function;
use kept_knots::with_knots;
use knot_vectors::knots::Generated;
use ray::knots::PointKnots;
use surface::evaluation::{Evaluation, Share};
use t_mesh::t_mesh::{Place, Tmesh};

// Nothing lent.
fn lend_none(
    across: &mut [[f64; 5]; 128],
    upwards: &mut [[f64; 5]; 128],
    places: &mut [[f64; 4]; 128],
    listed: &mut [bool; 128],
)
    ensures { lent across.new upwards.new places.new listed.new ≡ none_lent }
{
    let knots = [0.0; 5];
    let place = [0.0; 4];
    *across = [knots; 128];
    *upwards = [knots; 128];
    *places = [place; 128];
    *listed = [false; 128];
}

// A point's knots and place under its number.
fn lend_point(
    across: &mut [[f64; 5]; 128],
    upwards: &mut [[f64; 5]; 128],
    places: &mut [[f64; 4]; 128],
    n: usize,
    knots: PointKnots,
    place: Place,
)
    requires { (n < 128) × Full across.old upwards.old places.old }
    ensures { (across.new ≡ set across.old n knots.s) × ((upwards.new ≡ set upwards.old n knots.t) × (places.new ≡ set places.old n (place_row place))) }
{
    let s = knots.s;
    let t = knots.t;
    let position = place.position;
    let row = [position.x, position.y, position.z, place.pull];
    across[n] = s;
    upwards[n] = t;
    places[n] = row;
}

// Every point of a map, and the listing.
fn lend_all(
    across: &mut [[f64; 5]; 128],
    upwards: &mut [[f64; 5]; 128],
    places: &mut [[f64; 4]; 128],
    listed: &mut [bool; 128],
    map: Tmesh,
)
    requires { Full across.old upwards.old places.old }
    ensures { lent across.new upwards.new places.new listed.new ≡ lent_of map }
{
    let listing = map.mesh.listed;
    *listed = listing;
    let own = map.mesh.places;
    for n in 0..128usize {
        lend_point(across, upwards, places, n, map.knots[n], own[n]);
    }
}

// A map, lent with its knots; they are built only if none are kept. Where that is refused nothing is lent, and the map comes back as it was.
pub fn lend(
    across: &mut [[f64; 5]; 128],
    upwards: &mut [[f64; 5]; 128],
    places: &mut [[f64; 4]; 128],
    listed: &mut [bool; 128],
    map: Tmesh,
) -> Generated
    ensures is { (result, lent across.new upwards.new places.new listed.new) ≡ lend_of millionth map }
    ensures told { outcome_told result.outcome ≡ lend_table millionth map }
{
    lend_none(across, upwards, places, listed);
    let built = with_knots(map);
    let outcome = built.outcome;
    if let Err(_) = outcome {
        return built;
    }
    lend_all(across, upwards, places, listed, built.map);
    built
}

// What a point adds at (s, t).
fn lent_share<'a>(
    across: &'a [[f64; 5]; 128],
    upwards: &'a [[f64; 5]; 128],
    places: &'a [[f64; 4]; 128],
    n: usize,
    s: f64,
    t: f64,
) -> Share
    requires { n < 128 }
    ensures { result ≡ share_by (lent_knots across.now upwards.now n) (lent_place places.now n) s t }
{
    let place = places[n];
    let weight = basis_function(s, across[n]) * basis_function(t, upwards[n]) * place[3];
    Share {
        x: place[0] * weight,
        y: place[1] * weight,
        z: place[2] * weight,
        weight,
    }
}

// The value at (s, t) of the map that the arrays hold.
pub fn lent_value<'a>(
    across: &'a [[f64; 5]; 128],
    upwards: &'a [[f64; 5]; 128],
    places: &'a [[f64; 4]; 128],
    listed: &'a [bool; 128],
    s: f64,
    t: f64,
) -> Evaluation
    ensures { result ≡ value_of (held_map across.now upwards.now places.now listed.now) s t }
{
    let mut x = 0.0;
    let mut y = 0.0;
    let mut z = 0.0;
    let mut weight = 0.0;
    for n in 0..128usize {
        if listed[n] {
            let share = lent_share(across, upwards, places, n, s, t);
            x = x + share.x;
            y = y + share.y;
            z = z + share.z;
            weight = weight + share.weight;
        }
    }
    Evaluation {
        x: x / weight,
        y: y / weight,
        z: z / weight,
        weight,
    }
}
