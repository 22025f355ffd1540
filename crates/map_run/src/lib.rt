// The run of a file: the map of its border and corners, and its edits in order, over a lent mesh.
#![tactic(auto)]

ghost use Rattle.std.specs.Prelude.{◌≡◌};
ghost use Rattle.big_endian.specs.Written.{written};
ghost use Rattle.control_point.specs.Small.{millionth};
ghost use Rattle.lent_mesh.specs.LentMesh.{lent_map};
ghost use Rattle.lent_points.specs.Lent.{Room};
ghost use Rattle.map_file.specs.Run.{file_map, file_numbers};

use big_endian::{float_at, put_byte};
use insertion::insertion::answer_number;
use lent_corners::lend_corners;
use lent_mesh::LentMesh;
use map_file::edit::{next_place, run_edit};
use map_format::format::{
    BORDER_AT, CORNERS_AT, EDITS_AT, POSITION_BYTES, file_withdraws, position_at,
};
use packed_map::packed_map;
use t_mesh::t_mesh::Tmesh;

// The map of a file's border and corners and so many of its edits, into the arrays of a lent mesh, whatever they held. The file is one that
// `validate` has passed. The answer number of each edit is noted, as far as there is room.
pub fn run_lent(file: &[u8], count: usize, notes: &mut [u8], mesh: &mut LentMesh)
    requires { Room mesh.old.points }
    ensures map { lent_map mesh.new ≡ file_map millionth file.now count }
    ensures notes { notes.new ≡ written notes.old 0 (file_numbers millionth file.now count) }
{
    lend_corners(
        mesh,
        float_at(file, BORDER_AT),
        position_at(file, CORNERS_AT),
        position_at(file, CORNERS_AT + POSITION_BYTES),
        position_at(file, CORNERS_AT + 2 * POSITION_BYTES),
        position_at(file, CORNERS_AT + 3 * POSITION_BYTES),
    );
    let withdraws = file_withdraws(file);
    let mut at = EDITS_AT;
    for n in 0..count {
        let answer = run_edit(withdraws, file, at, mesh);
        put_byte(notes, n, answer_number(answer));
        at = next_place(file, at);
    }
}

// The same, with the map by value.
pub fn run_edits(file: &[u8], count: usize, notes: &mut [u8]) -> Tmesh
    ensures map { result ≡ file_map millionth file.now count }
    ensures notes { notes.new ≡ written notes.old 0 (file_numbers millionth file.now count) }
{
    let mut mesh = LentMesh::blank();
    run_lent(file, count, notes, &mut mesh);
    packed_map(&mesh)
}
