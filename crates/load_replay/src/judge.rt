// The answers of the C call for a load, held against stored bytes. It is given a part of a page of fillers, and the whole page is looked at afterwards.
ghost use Rattle.std.specs.Prelude.{◌≡◌};
ghost use Rattle.load_replay.specs.Judged.{call_is_right};

use big_endian::{after, number_at, pair_at};
use gatemap_host::gatemap_load;
use stored_calls::points::both;
use stored_page::{GUARD, page_holds};

// Where the parts of a stored call stand; the seed stands first.
const COUNT_AT: usize = 8;

const ROOM_AT: usize = 16;

const RETURNED_AT: usize = 18;

const HELD_AT: usize = 26;

// Whether the call answers what a stored one says.
pub fn call_is_right(call: &[u8], page: &mut [u8]) -> bool
    ensures { result ≡ call_is_right call.now page.old }
{
    if call.len() < HELD_AT {
        return false;
    }
    let end = GUARD + pair_at(call, ROOM_AT);
    if page.len() < end {
        return false;
    }
    let number = gatemap_load(
        number_at(call, 0),
        number_at(call, COUNT_AT),
        &mut page[GUARD..end],
    );
    both(
        number == number_at(call, RETURNED_AT),
        page_holds(page, after(call, HELD_AT)),
    )
}
