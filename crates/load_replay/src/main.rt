// Replays the stored loads, and says how many came out right: what the C call answers with each. oracle/README.md has the format of data/cases.
#![tactic(auto)]

mod judge;

use crate::judge::call_is_right;
use std::io;
use stored_page::FILLER;

// A call's page: behind a buffer of 34,177 bytes, in which a file of 1,002 edits would have room, stand as many fillers as before it.
const CALL_PAGE: usize = 34209;

fn is_right(call: &[u8]) -> bool {
    let mut page = [FILLER; CALL_PAGE];
    call_is_right(call, &mut page)
}

fn main(rt: HostRuntime) -> io::Result<()> {
    replay::run(&rt, is_right)
}
