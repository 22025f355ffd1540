// Replays the stored seasons, and says how many came out right: what the C call answers with each. oracle/README.md has the format of data/cases.
#![tactic(auto)]

mod judge;

use crate::judge::{CALL_BYTES, call_is_right};
use control_point::sides::wide;
use replay::split_prefixed;
use std::io;
use stored_page::FILLER;

// A call's page: behind a buffer of 16 bytes stand as many fillers as before it.
const CALL_PAGE: usize = 48;

// Whether all calls stored for a season are right, behind a byte for how many there are, and nothing stands behind.
fn calls_right(season: &[u8], calls: &[u8]) -> bool {
    let Some((count, calls)) = calls.split_first() else {
        return false;
    };
    calls.len() == wide(*count) * CALL_BYTES
        && calls.chunks_exact(CALL_BYTES).all(|call| call_is_right(
            season,
            call,
            &mut [FILLER; CALL_PAGE],
        ))
}

fn is_right(case: &[u8]) -> bool {
    split_prefixed(case).is_some_and(|(season, calls)| calls_right(season, calls))
}

fn main(rt: HostRuntime) -> io::Result<()> {
    replay::run(&rt, is_right)
}
