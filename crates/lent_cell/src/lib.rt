// Which points of a lent mesh reach a cell: the knots of each listed point are computed, tested and forgotten.
#![tactic(auto)]

ghost use Rattle.std.specs.Prelude.{◌≡◌, List, Float};
ghost use Rattle.cells.specs.Cells.{cell_points};
ghost use Rattle.lent_mesh.specs.LentMesh.{lent_map};

use control_point::refusal::Refusal;
use grid::reaches;
use grid_index::{Cell, counted, marked};
use lent_knots::knots_under;
use lent_points::LentPoints;

// Of the cell of a byte. The first listed point whose knots are refused ends it, whatever was found before. The positions have no part in it.
pub fn lent_cell(
    closeness: f64,
    points: &LentPoints,
    made: u8,
    listed: &[bool; 128],
    cell: u8,
) -> Result<Cell, Refusal>
    ensures { (positions : List (List Float)) →
        let map = lent_map (record { points = points.now; made = made; positions = positions; listed = listed.now }) in
        result ≡ (cell_points closeness map cell).answer }
{
    let mut first: u64 = 0;
    let mut second: u64 = 0;
    for n in 0..128u8 {
        let is_listed = listed[n as usize];
        if !is_listed {
            continue;
        }
        let built = knots_under(closeness, points, made, n);
        built.outcome?;
        let set = reaches(built.knots, cell);
        let bit = 1u64 << (n % 64);
        first = marked(first, bit, set & (n / 64 == 0));
        second = marked(second, bit, set & (n / 64 == 1));
    }
    Ok(counted(first, second))
}
