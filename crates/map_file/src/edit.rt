// One edit of a file, into a lent mesh. No knots are kept, so an edit changes nothing but the mesh.
ghost use Rattle.std.specs.Prelude.{◌≡◌, ◌+◌};
ghost use Rattle.control_point.specs.Small.{millionth};
ghost use Rattle.lent_mesh.specs.LentMesh.{lent_mesh, MeshRoom};
ghost use Rattle.map_format.specs.Format.{edit_bytes, edit_at};
ghost use Rattle.map_file.specs.Run.{mesh_edited, SameEdits};

use control_point::refusal::Refusal;
use control_point::small::closeness;
use insertion::insertion::{Insertion, is_done};
use lent_mesh::{LentMesh, row_of};
use map_format::format::{EDIT_BYTES, edit_position};
use map_format::reader::target_from;
use withdrawal::{insert_by_rule, leaves_point};

// Where the next edit is read. Past the file's end every edit reads the same.
pub fn next_place(file: &[u8], at: usize) -> usize
    ensures { SameEdits file.now result (at + edit_bytes) }
{
    if at < file.len() { at + EDIT_BYTES } else { at }
}

// The edit at a place, where torn edits are withdrawn or are not. Its position is read only where it leaves a point.
pub fn run_edit(
    withdraws: bool,
    file: &[u8],
    at: usize,
    mesh: &mut LentMesh,
) -> Result<Insertion, Refusal>
    requires { MeshRoom mesh.old }
    ensures answer { result ≡ (mesh_edited withdraws millionth (lent_mesh mesh.old) (edit_at file.now at)).answer }
    ensures mesh { lent_mesh mesh.new ≡ (mesh_edited withdraws millionth (lent_mesh mesh.old) (edit_at file.now at)).mesh }
    ensures room { MeshRoom mesh.new }
{
    let p = mesh.made;
    let target = target_from(file, at);
    let direction = target.direction;
    let listed = mesh.lent_listed(target.point);
    let answer = insert_by_rule(
        withdraws,
        closeness(),
        &mut mesh.points,
        p,
        listed,
        target.point,
        direction,
        target.ratio,
    );
    // No `?`: what is refused and what is withdrawn leave by one test.
    if !leaves_point(withdraws, answer) {
        return answer;
    }
    mesh.positions[p as usize] = row_of(edit_position(file, at));
    mesh.listed[p as usize] = is_done(answer);
    mesh.made = p + 1;
    answer
}
