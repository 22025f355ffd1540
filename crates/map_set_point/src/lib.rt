// The set-point of a map file.
#![tactic(auto)]

ghost use Rattle.std.specs.Prelude.{◌≡◌};
ghost use Rattle.control_point.specs.Small.{millionth};
ghost use Rattle.map_file.specs.Run.{file_map, file_set_point};
ghost use Rattle.map_file.specs.Table.{file_set_point_table};
ghost use Rattle.surface.specs.Evaluation.{evaluation_told, subs_of};
ghost use Rattle.surface.specs.SetPoint.{weighed, set_point};

use control_point::refusal::Refusal;
use control_point::small::closeness;
use lent_evaluation::lent_answer;
use lent_mesh::LentMesh;
use map_format::format::validate;
use map_run::run_lent;
use set_point_check::{on_map, weighed};
use surface::evaluation::Evaluation;

// On the map, after so many edits, with no room for notes. The mesh stays lent from its corners to the answer: no map stands by value.
fn edited_set_point(file: &[u8], count: usize, s: f64, t: f64) -> Result<Evaluation, Refusal>
    ensures { result ≡ weighed (subs_of millionth (file_map millionth file.now count) s t).answer }
{
    let mut mesh = LentMesh::blank();
    let mut notes = [0u8; 0];
    run_lent(file, count, &mut notes, &mut mesh);
    weighed(lent_answer(closeness(), &mesh, s, t))
}

// Of a valid file; off the map no edit is run.
fn valid_set_point(file: &[u8], count: usize, s: f64, t: f64) -> Result<Evaluation, Refusal>
    ensures { result ≡ (set_point millionth (file_map millionth file.now count) s t).answer }
{
    if !on_map(s, t) {
        return Err(Refusal::OffMap);
    }
    edited_set_point(file, count, s, t)
}

// The set-point of a file at (s, t); a refused file runs nothing.
pub fn file_set_point(file: &[u8], s: f64, t: f64) -> Result<Evaluation, Refusal>
    ensures is { result ≡ file_set_point millionth file.now s t }
    ensures told { evaluation_told result ≡ file_set_point_table millionth file.now s t }
{
    let count = validate(file)?;
    valid_set_point(file, count, s, t)
}
