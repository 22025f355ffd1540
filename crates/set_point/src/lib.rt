// The set-point: of a map, and of a map lent for evaluation.
#![tactic(auto)]

ghost use Rattle.std.specs.Prelude.{◌≡◌};
ghost use Rattle.control_point.specs.Small.{millionth};
ghost use Rattle.lent_surface.specs.Lent.{held_map};
ghost use Rattle.surface.specs.Evaluation.{evaluation_told};
ghost use Rattle.surface.specs.SetPoint.{set_point, set_point_table};

use control_point::refusal::Refusal;
use evaluation::evaluation::subs;
use lent_surface::lent_value;
use set_point_check::{on_map, weighed, where_weighty};
use surface::evaluation::{Evaluated, Evaluation};
use t_mesh::t_mesh::Tmesh;

// At (s, t). Off the map nothing is evaluated, and the map comes back as it was.
pub fn set_point(map: Tmesh, s: f64, t: f64) -> Evaluated
    ensures is { result ≡ set_point millionth map s t }
    ensures told { evaluation_told result.answer ≡ set_point_table millionth map s t }
{
    if !on_map(s, t) {
        return Evaluated {
            answer: Err(Refusal::OffMap),
            map,
        };
    }
    let evaluated = subs(map, s, t);
    let answer = evaluated.answer;
    let after = evaluated.map;
    Evaluated {
        answer: weighed(answer),
        map: after,
    }
}

// At (s, t), of the map that the arrays hold.
pub fn lent_set_point<'a>(
    across: &'a [[f64; 5]; 128],
    upwards: &'a [[f64; 5]; 128],
    places: &'a [[f64; 4]; 128],
    listed: &'a [bool; 128],
    s: f64,
    t: f64,
) -> Result<Evaluation, Refusal>
    ensures is { result ≡ (set_point millionth (held_map across.now upwards.now places.now listed.now) s t).answer }
    ensures told { evaluation_told result ≡ set_point_table millionth (held_map across.now upwards.now places.now listed.now) s t }
{
    if !on_map(s, t) {
        return Err(Refusal::OffMap);
    }
    where_weighty(lent_value(across, upwards, places, listed, s, t))
}
