// The evaluation of a lent mesh: the knots of each listed point are computed, used and forgotten; every pull is 1.0.
#![tactic(auto)]

ghost use Rattle.std.specs.Prelude.{◌≡◌};
ghost use Rattle.lent_mesh.specs.LentMesh.{lent_map};
ghost use Rattle.surface.specs.Evaluation.{subs_of};

use control_point::refusal::Refusal;
use evaluation::evaluation::share_of;
use lent_knots::knots_under;
use lent_mesh::LentMesh;
use surface::evaluation::Evaluation;
use t_mesh::t_mesh::unpulled;

// At (s, t). The first listed point whose knots are refused ends it, whatever was summed before.
pub fn lent_answer(closeness: f64, mesh: &LentMesh, s: f64, t: f64) -> Result<Evaluation, Refusal>
    ensures { let map = lent_map mesh.now in
        result ≡ (subs_of closeness map s t).answer }
{
    let mut x = 0.0;
    let mut y = 0.0;
    let mut z = 0.0;
    let mut weight = 0.0;
    for n in 0..128u8 {
        let listed = mesh.listed[n as usize];
        if !listed {
            continue;
        }
        let built = knots_under(closeness, &mesh.points, mesh.made, n);
        built.outcome?;
        let place = unpulled(mesh.lent_position(n));
        let share = share_of(built.knots, place, s, t);
        x += share.x;
        y += share.y;
        z += share.z;
        weight += share.weight;
    }
    Ok(Evaluation {
        x: x / weight,
        y: y / weight,
        z: z / weight,
        weight,
    })
}
