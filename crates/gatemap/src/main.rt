// Reads a map file from standard input and prints its report.
#![tactic(auto)]

use map_format::format::MOST_FILE_BYTES;
use reading::read_full;
use std::io;

// One byte more than the longest valid file: a file that fills this has a wrong length.
const FILE_BYTES: usize = MOST_FILE_BYTES + 1;

// No report is longer.
const REPORT_BYTES: usize = 32768;

fn main(rt: HostRuntime) -> io::Result<()> {
    let mut file = [0u8; FILE_BYTES];
    let read = read_full(&mut rt.stdin(), &mut file)?;
    let mut text = [0u8; REPORT_BYTES];
    let end = report::report(&file[..read], &mut text);
    rt.write_all(&text[..end])
}
