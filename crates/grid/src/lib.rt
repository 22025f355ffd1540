// The grid of 16 by 16 cells over the map, from 0 to 1 both ways, and which cells a point's knots reach.
#![tactic(auto)]

ghost use Rattle.std.specs.Prelude.{◌≡◌, ◌<◌};
ghost use Rattle.grid.specs.Grid.{line, cell_column, cell_row, overlap, on_line, reaches};

use ray::knots::PointKnots;

// The grid's line of a number.
#[tactic(auto, unfolding(crate::specs::Grid::line))]
pub fn line(i: u8) -> f64
    ensures { result ≡ line i }
{
    f64::from(i) / 16.0
}

// Whether the stretch from one knot to another and that from one line to another have a number in common, each without its end; the second is taken not to be empty.
// The tests of two stretches come out either way, so `&` and not `&&` joins them here and below: no test then waits for the one before it.
pub fn overlap(first: f64, last: f64, from: f64, to: f64) -> bool
    ensures { result ≡ overlap first last from to }
{
    (first < last) & (first < to) & (from < last)
}

// Whether five knots reach the stretch from a line to the next.
fn on_line(five: [f64; 5], i: u8) -> bool
    requires { i < 16 }
    ensures { result ≡ on_line five i }
{
    overlap(five[0], five[4], line(i), line(i + 1))
}

// Whether a point's knots reach the cell of a byte.
pub fn reaches(own: PointKnots, cell: u8) -> bool
    ensures { result ≡ reaches own (cell_column cell) (cell_row cell) }
{
    on_line(own.s, cell % 16) & on_line(own.t, cell / 16)
}
