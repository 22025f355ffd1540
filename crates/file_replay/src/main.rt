// Replays the stored map files, and says how many came out right: the text of each, and what the C calls answer with it. oracle/README.md has the format of data/cases.
#![tactic(auto)]

ghost use Rattle.std.specs.Prelude.{◌≤◌};

mod judge;

use crate::judge::{CALL_BYTES, CELL_CALL_BYTES, call_is_right, cell_call_is_right, text_is_right};
use control_point::sides::wide;
use grid_index::Cell;
use replay::split_prefixed;
use std::io;
use stored_page::FILLER;

// A report's page, and where its buffer ends: 32,768 bytes have room for every report, and as many fillers stand behind as before. In a call's page a buffer of 64
// bytes has as many.
const TEXT_PAGE: usize = 32800;

const TEXT_END: usize = 32784;

const CALL_PAGE: usize = 96;

fn text_right(file: &[u8], text: &[u8]) -> bool {
    let mut page = [FILLER; TEXT_PAGE];
    text_is_right(file, text, TEXT_END, &mut page)
}

// The calls that some bytes begin with, each of so many, behind a byte for how many there are; and what stands behind them. None where the bytes end before.
fn split_calls(bytes: &[u8], call_bytes: usize) -> Option<(&[u8], &[u8])>
    requires { call_bytes ≤ 50 }
{
    let (count, rest) = bytes.split_first()?;
    rest.split_at_checked(wide(*count) * call_bytes)
}

// Whether all calls stored for a file are right, those for set-points and those for cells behind them, and nothing stands behind.
fn calls_right(file: &[u8], calls: &[u8]) -> bool {
    let Some((set_points, behind)) = split_calls(calls, CALL_BYTES) else {
        return false;
    };
    let Some((cells, [])) = split_calls(behind, CELL_CALL_BYTES) else {
        return false;
    };
    set_points
        .chunks_exact(CALL_BYTES)
        .all(|call| call_is_right(file, call, &mut [FILLER; CALL_PAGE]))
        && cells.chunks_exact(CELL_CALL_BYTES).all(|call| cell_call_is_right(
            file,
            call,
            &mut [FILLER; CALL_PAGE],
        ))
}

// A file, the text of its report, and the calls: what each case is.
fn is_right(case: &[u8]) -> bool {
    let Some((file, behind)) = split_prefixed(case) else {
        return false;
    };
    let Some((text, calls)) = split_prefixed(behind) else {
        return false;
    };
    text_right(file, text) && calls_right(file, calls)
}

fn main(rt: HostRuntime) -> io::Result<()> {
    replay::run(&rt, is_right)
}
