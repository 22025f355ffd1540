// The answers of the C call for a season, held against stored bytes. It is given a part of a page of fillers, and the whole page is looked at afterwards.
ghost use Rattle.std.specs.Prelude.{◌≡◌};
ghost use Rattle.season_replay.specs.Judged.{call_is_right};

use big_endian::{byte_at, length_at};
use control_point::sides::wide;
use gatemap_host::gatemap_season;
use stored_page::{GUARD, answer_is_right};

// The bytes of a stored call, and where its parts stand; the minute stands first.
pub const CALL_BYTES: usize = 7;

const ROOM_AT: usize = 4;

const ANSWER_AT: usize = 5;

// Whether the call answers with a season what a stored call says.
pub fn call_is_right(season: &[u8], call: &[u8], page: &mut [u8]) -> bool
    ensures { result ≡ call_is_right season.now call.now page.old }
{
    if call.len() < CALL_BYTES {
        return false;
    }
    let end = GUARD + wide(byte_at(call, ROOM_AT));
    if page.len() < end {
        return false;
    }
    let minute = length_at(call, 0) as u32;
    let number = gatemap_season(season, minute, &mut page[GUARD..end]);
    answer_is_right(number, page, &call[ANSWER_AT..CALL_BYTES])
}
