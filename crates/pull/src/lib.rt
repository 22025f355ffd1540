// The call that sets a point's pull.
#![tactic(auto)]

ghost use Rattle.std.specs.Prelude.{◌≡◌};
ghost use Rattle.control_point.specs.Told.{outcome_told};
ghost use Rattle.pull.specs.Pull.{can_pull, repulled, pull_outcome, set_pull, pull_table};

use control_point::refusal::Refusal;
use control_point::t_mesh_control_point::is_made;
use t_mesh::t_mesh::{Place, Tmesh};

// What came of setting a pull, and the map after it.
#[derive(Clone, Copy)]
pub struct Pulled {
    pub outcome: Result<(), Refusal>,
    pub map: Tmesh,
}

// Whether a number may be a pull: at least 0 and finite.
fn can_pull(pull: f64) -> bool
    ensures { result ≡ can_pull pull }
{
    0.0 <= pull && pull < 1.0 / 0.0
}

// A place with another pull.
fn repulled(place: Place, pull: f64) -> Place
    ensures { result ≡ repulled place pull }
{
    let position = place.position;
    Place { position, pull }
}

// What comes of setting a point's pull, with so many points made.
fn pull_outcome(made: u8, n: u8, pull: f64) -> Result<(), Refusal>
    ensures { result ≡ pull_outcome made n pull }
{
    if !is_made(made, n) {
        return Err(Refusal::NoPoint);
    }
    if !can_pull(pull) {
        return Err(Refusal::Pull);
    }
    Ok(())
}

// Sets the pull of a made point, listed or not, and nothing else. Refused, 11 and then 17, the map is as it was.
pub fn set_pull(mut map: Tmesh, n: u8, pull: f64) -> Pulled
    ensures is { result ≡ set_pull map n pull }
    ensures told { outcome_told result.outcome ≡ pull_table map n pull }
{
    let mut mesh = map.mesh;
    let outcome = pull_outcome(mesh.made, n, pull);
    if let Ok(()) = outcome {
        let place = repulled(mesh.places[n as usize], pull);
        mesh.places[n as usize] = place;
        map.mesh = mesh;
    }
    Pulled { outcome, map }
}
