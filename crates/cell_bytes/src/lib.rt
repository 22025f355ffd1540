// The words of a cell and the count of their ones as 17 bytes, which the C call for a cell writes.
#![tactic(auto)]

ghost use Rattle.std.specs.Prelude.{◌≡◌};
ghost use Rattle.big_endian.specs.Written.{written};
ghost use Rattle.cell_bytes.specs.CellBytes.{bytes_of_cell};

use big_endian::{put_byte, put_number};
use grid_index::Cell;

// At the start of a buffer, as far as that reaches.
pub fn write_cell(out: &mut [u8], words: Cell)
    ensures { out.new ≡ written out.old 0 (bytes_of_cell words) }
{
    put_number(out, 0, words.first);
    put_number(out, 8, words.second);
    put_byte(out, 16, words.count);
}
