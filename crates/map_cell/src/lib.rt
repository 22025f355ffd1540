// Which points reach a cell of the map of a file.
#![tactic(auto)]

ghost use Rattle.std.specs.Prelude.{◌≡◌};
ghost use Rattle.cells.specs.Cells.{cell_points, cell_told};
ghost use Rattle.control_point.specs.Small.{millionth};
ghost use Rattle.map_file.specs.Run.{file_map};
ghost use Rattle.map_cell.specs.FileCell.{file_cell, file_cell_table};

use control_point::refusal::Refusal;
use control_point::small::closeness;
use grid_index::Cell;
use lent_cell::lent_cell;
use lent_mesh::LentMesh;
use map_format::format::validate;
use map_run::run_lent;

// After so many edits, with no room for notes. The mesh stays lent from its corners to the answer: no map stands by value.
fn edited_cell(file: &[u8], count: usize, cell: u8) -> Result<Cell, Refusal>
    ensures { result ≡ (cell_points millionth (file_map millionth file.now count) cell).answer }
{
    let mut mesh = LentMesh::blank();
    let mut notes = [0u8; 0];
    run_lent(file, count, &mut notes, &mut mesh);
    lent_cell(closeness(), &mesh.points, mesh.made, &mesh.listed, cell)
}

// Of the cell of a byte; a refused file runs nothing.
pub fn file_cell(file: &[u8], cell: u8) -> Result<Cell, Refusal>
    ensures is { result ≡ file_cell millionth file.now cell }
    ensures told { cell_told result ≡ file_cell_table millionth file.now cell }
{
    let count = validate(file)?;
    edited_cell(file, count, cell)
}
