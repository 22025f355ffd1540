// Reads a seed and a count of edits from standard input, and writes the load's map file; where it is refused, nothing.
#![tactic(auto)]

use load::{ASKED_BYTES, write_asked};
use map_format::format::MOST_FILE_BYTES;
use map_writing::bytes_written;
use reading::read_full;

// One byte more than what is asked for: an input that fills this has a wrong length.
const INPUT_BYTES: usize = ASKED_BYTES + 1;

// An input that can't be read has no ten bytes, and an output that takes nothing is left: of neither does the program say anything.
fn main(rt: HostRuntime) {
    let mut input = [0u8; INPUT_BYTES];
    let read = read_full(&mut rt.stdin(), &mut input).unwrap_or(0);
    let mut file = [0u8; MOST_FILE_BYTES];
    let written = bytes_written(write_asked(&input[..read], &mut file));
    let _ = rt.write_all(&file[..written]);
}
