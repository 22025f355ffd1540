// The report of a file and the answers of the C calls, held against stored bytes. Each is given a part of a page of fillers, and the whole page is looked at afterwards.
ghost use Rattle.std.specs.Prelude.{◌≡◌, ◌≤◌};
ghost use Rattle.file_replay.specs.Judged.{text_is_right, call_is_right, cell_call_is_right};
ghost use Rattle.stored_page.specs.Page.{guard};

use big_endian::{byte_at, number_at};
use control_point::sides::wide;
use gatemap_host::{gatemap_cell, gatemap_set_point};
use report::report;
use stored_calls::points::both;
use stored_page::{GUARD, answer_is_right, page_holds};

// The bytes of a stored call for a set-point, and where its parts stand.
pub const CALL_BYTES: usize = 50;

const T_AT: usize = 8;

const ROOM_AT: usize = 16;

const ANSWER_AT: usize = 17;

// The same of a call for a cell, which stands first.
pub const CELL_CALL_BYTES: usize = 20;

const CELL_ROOM_AT: usize = 1;

const CELL_ANSWER_AT: usize = 2;

// Whether the report of a file, in a buffer that ends at a place of the page, is a text.
pub fn text_is_right(file: &[u8], text: &[u8], end: usize, page: &mut [u8]) -> bool
    requires { guard ≤ end }
    ensures { result ≡ text_is_right file.now text.now end page.old }
{
    if page.len() < end {
        return false;
    }
    let length = report(file, &mut page[GUARD..end]);
    both(length == text.len(), page_holds(page, text))
}

// Whether the C call for a set-point answers with a file what a stored call says.
pub fn call_is_right(file: &[u8], call: &[u8], page: &mut [u8]) -> bool
    ensures { result ≡ call_is_right file.now call.now page.old }
{
    if call.len() < CALL_BYTES {
        return false;
    }
    let end = GUARD + wide(byte_at(call, ROOM_AT));
    if page.len() < end {
        return false;
    }
    let s = number_at(call, 0);
    let t = number_at(call, T_AT);
    let number = gatemap_set_point(file, s, t, &mut page[GUARD..end]);
    answer_is_right(number, page, &call[ANSWER_AT..CALL_BYTES])
}

// Whether the C call for a cell answers with a file what a stored call says.
pub fn cell_call_is_right(file: &[u8], call: &[u8], page: &mut [u8]) -> bool
    ensures { result ≡ cell_call_is_right file.now call.now page.old }
{
    if call.len() < CELL_CALL_BYTES {
        return false;
    }
    let end = GUARD + wide(byte_at(call, CELL_ROOM_AT));
    if page.len() < end {
        return false;
    }
    let number = gatemap_cell(file, byte_at(call, 0), &mut page[GUARD..end]);
    answer_is_right(number, page, &call[CELL_ANSWER_AT..CELL_CALL_BYTES])
}
