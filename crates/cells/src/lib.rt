// Which points reach a cell of the grid: the call on a map.
#![tactic(auto)]

ghost use Rattle.std.specs.Prelude.{◌≡◌};
ghost use Rattle.control_point.specs.Small.{millionth};
ghost use Rattle.cells.specs.Cells.{cell_told, cell_answer_by, cell_points};
ghost use Rattle.cells.specs.Table.{cell_points_table};

use control_point::refusal::Refusal;
use grid_index::{Cell, cell_of};
use kept_knots::with_knots;
use t_mesh::t_mesh::Tmesh;

// What the call answers, and the map after it.
#[derive(Clone, Copy)]
pub struct Asked {
    pub answer: Result<Cell, Refusal>,
    pub map: Tmesh,
}

// The words, where there are knots.
fn cell_answer_by(outcome: Result<(), Refusal>, words: Cell) -> Result<Cell, Refusal>
    ensures { result ≡ cell_answer_by outcome words }
{
    match outcome {
        Ok(()) => Ok(words),
        Err(refusal) => Err(refusal),
    }
}

// Of the cell of a byte, 16 times its t row plus its s column; knots and index are built only if none are kept.
pub fn cell_points(map: Tmesh, cell: u8) -> Asked
    ensures is { result ≡ cell_points millionth map cell }
    ensures told { cell_told result.answer ≡ cell_points_table millionth map cell }
{
    let ready = with_knots(map);
    let outcome = ready.outcome;
    let after = ready.map;
    let answer = cell_answer_by(outcome, cell_of(after.index, cell));
    Asked { answer, map: after }
}
