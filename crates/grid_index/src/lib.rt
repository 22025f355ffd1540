// The index of a map: which of its listed points reach each cell of the grid.
#![tactic(auto)]

ghost use Rattle.std.specs.Prelude.{◌≡◌, length};
ghost use Rattle.values.specs.Values.{values_from};
ghost use Rattle.grid.specs.Grid.{first_knot, last_knot};
ghost use Rattle.grid_index.specs.Index.{index_of, counted, cell_of};
ghost use Rattle.grid_index.specs.Lines.{marked_by, marked_at, both_word};

use grid::{line, overlap};
use ray::knots::PointKnots;

// Of each cell, by its byte, the listed points that reach it: a bit for each number, those below 64 in the first word and those from 64 on in the second.
#[derive(Clone, Copy)]
pub struct Index {
    pub first: [u64; 256],
    pub second: [u64; 256],
}

// The words of one cell, and the count of their ones.
#[derive(Clone, Copy)]
pub struct Cell {
    pub first: u64,
    pub second: u64,
    pub count: u8,
}

// A word, with a bit set in it where the test holds.
pub fn marked(word: u64, bit: u64, test: bool) -> u64
    ensures { result ≡ marked_by test word bit }
{
    if test { word | bit } else { word }
}

// Sets a bit in the words of 16 lines: in that of each line for which the stretch between two knots and the one from the line to the next have a number in common.
#[tactic(auto, using(crate::proofs::IndexLaws::marked_all))]
fn mark(words: &mut [u64; 16], bit: u64, first: f64, last: f64)
    requires { length words.old ≡ 16 }
    ensures { words.new ≡ values_from (marked_at words.old bit first last) 16 0 }
{
    for i in 0..16u8 {
        let test = overlap(first, last, line(i), line(i + 1));
        words[usize::from(i)] = marked(words[usize::from(i)], bit, test);
    }
}

// Sets a point's bit in the words of the columns and of the rows where the test of its knots holds.
fn mark_point(columns: &mut [u64; 16], rows: &mut [u64; 16], bit: u64, own: PointKnots)
    requires { (length columns.old ≡ 16) × (length rows.old ≡ 16) }
    ensures { (columns.new ≡ values_from (marked_at columns.old bit (first_knot own.s) (last_knot own.s)) 16 0) × (rows.new ≡ values_from (marked_at rows.old bit (first_knot own.t) (last_knot own.t)) 16 0) }
{
    mark(columns, bit, own.s[0], own.s[4]);
    mark(rows, bit, own.t[0], own.t[4]);
}

// The word of each cell: what the words of its column and of its row have in common.
#[tactic(auto, using(crate::proofs::IndexLaws::cells_all))]
fn cell_words(words: &mut [u64; 256], columns: &[u64; 16], rows: &[u64; 16])
    requires { length words.old ≡ 256 }
    ensures { words.new ≡ values_from (both_word columns.now rows.now) 256 0 }
{
    for row in 0..16 {
        let word = rows[row];
        for column in 0..16 {
            words[row * 16 + column] = columns[column] & word;
        }
    }
}

// The words of all cells, those of the points below 64 and those of the points from 64 on.
pub fn index_of(listed: [bool; 128], knots: [PointKnots; 128]) -> Index
    ensures { result ≡ index_of listed knots }
{
    let mut columns = [0u64; 16];
    let mut rows = [0u64; 16];
    let mut later_columns = [0u64; 16];
    let mut later_rows = [0u64; 16];
    for i in 0..64 {
        let bit = 1u64 << i;
        if listed[i] {
            mark_point(&mut columns, &mut rows, bit, knots[i]);
        }
        if listed[64 + i] {
            mark_point(&mut later_columns, &mut later_rows, bit, knots[64 + i]);
        }
    }
    let mut first = [0u64; 256];
    let mut second = [0u64; 256];
    cell_words(&mut first, &columns, &rows);
    cell_words(&mut second, &later_columns, &later_rows);
    Index { first, second }
}

// Two words, and the count of their ones.
pub fn counted(first: u64, second: u64) -> Cell
    ensures { result ≡ counted first second }
{
    Cell {
        first,
        second,
        count: (first.count_ones() + second.count_ones()) as u8,
    }
}

// Of the cell of a byte.
pub fn cell_of(index: Index, cell: u8) -> Cell
    ensures { result ≡ cell_of index cell }
{
    let at = usize::from(cell);
    counted(index.first[at], index.second[at])
}
