// A page of fillers, held against what a call should have left in its buffer, which is a part of the page.
#![tactic(auto)]

ghost use Rattle.std.specs.Prelude.{◌≡◌};
ghost use Rattle.stored_page.specs.Call.{answer_is_right};
ghost use Rattle.stored_page.specs.Page.{expected_byte, holds};

use big_endian::{after, byte_at};
use stored_calls::points::both;

// What every byte of a page is before.
pub const FILLER: u8 = 165;

// The bytes of a page in front of the buffer.
pub const GUARD: usize = 16;

// The byte that a page should have at a place, where its buffer begins with the bytes held.
fn expected_byte(held: &[u8], place: usize) -> u8
    ensures { result ≡ expected_byte held.now place }
{
    if place < GUARD {
        return FILLER;
    }
    let at = place - GUARD;
    if at < held.len() {
        return held[at];
    }
    FILLER
}

// Whether a page holds those bytes, and nothing else.
pub fn page_holds(page: &[u8], held: &[u8]) -> bool
    ensures { result ≡ holds page.now held.now }
{
    let mut right = true;
    for n in 0..page.len() {
        right = both(right, page[n] == expected_byte(held, n));
    }
    right
}

// Whether a call's number is the first byte stored, and its page holds those behind.
pub fn answer_is_right(number: u64, page: &[u8], stored: &[u8]) -> bool
    ensures { result ≡ answer_is_right number page.now stored.now }
{
    both(
        number == byte_at(stored, 0) as u64,
        page_holds(page, after(stored, 1)),
    )
}
