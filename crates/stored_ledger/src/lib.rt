// The ledger of sides of a list of calls: what its insertions answered, by the stored bytes alone, held against what is counted of the map.
#![tactic(auto)]

ghost use Rattle.std.specs.Prelude.{◌≡◌};
ghost use Rattle.stored_ledger.specs.Ledger.{no_calls, with_more, with_made, with_insertion, with_withdrawing, with_direct_call, with_call, points_are_right, sides_are_right, ledger_is_right, ledger_holds};

use big_endian::byte_at;
use census::census::Counts;
use census::counts::counts;
use openings::openings::openings;
use stored_calls::points::both;
use t_mesh::t_mesh::{Tmesh, store_of};

pub const INSERTION: u8 = 0;

// An insertion that is withdrawn where it is torn.
pub const WITHDRAWING: u8 = 10;

// The first of the kinds that are direct calls.
pub const DIRECT: u8 = 16;

// Where a stored insertion has its number and its two counts.
const NUMBER_AT: usize = 35;

const OPENED_AT: usize = 36;

const INFERRED_AT: usize = 37;

// More than any total: a list has at most 65,535 calls, and each adds at most 255.
const MOST: u32 = 0x8000_0000;

// The insertions done and those torn, the sums of their counts, and whether a direct call was made, which may change sides by itself.
#[derive(Clone, Copy)]
pub struct Totals {
    pub done: u32,
    pub torn: u32,
    pub opened: u32,
    pub inferred: u32,
    pub direct: bool,
}

pub fn no_calls() -> Totals
    ensures { result ≡ no_calls }
{
    Totals {
        done: 0,
        torn: 0,
        opened: 0,
        inferred: 0,
        direct: false,
    }
}

// The sum. The remainder is the total itself, and fits with what is added.
fn with_more(total: u32, more: u8) -> u32
    ensures { result ≡ with_more total more }
{
    total % MOST + (more as u32)
}

// An insertion that made a point, done or torn: its two counts are added.
fn with_made(ledger: Totals, done: u8, torn: u8, call: &[u8]) -> Totals
    ensures { result ≡ with_made ledger done torn call.now }
{
    Totals {
        done: with_more(ledger.done, done),
        torn: with_more(ledger.torn, torn),
        opened: with_more(ledger.opened, byte_at(call, OPENED_AT)),
        inferred: with_more(ledger.inferred, byte_at(call, INFERRED_AT)),
        direct: ledger.direct,
    }
}

// An insertion, by the number that is stored: 0 done, 8 torn, any other refused.
fn with_insertion(ledger: Totals, call: &[u8]) -> Totals
    ensures { result ≡ with_insertion ledger call.now }
{
    let number = byte_at(call, NUMBER_AT);
    if number == 0 {
        return with_made(ledger, 1, 0, call);
    }
    if number == 8 {
        return with_made(ledger, 0, 1, call);
    }
    ledger
}

// One that is withdrawn where it is torn: then it is not in the totals.
fn with_withdrawing(ledger: Totals, call: &[u8]) -> Totals
    ensures { result ≡ with_withdrawing ledger call.now }
{
    if byte_at(call, NUMBER_AT) == 0 {
        return with_made(ledger, 1, 0, call);
    }
    ledger
}

fn with_direct_call(ledger: Totals) -> Totals
    ensures { result ≡ with_direct_call ledger }
{
    Totals {
        done: ledger.done,
        torn: ledger.torn,
        opened: ledger.opened,
        inferred: ledger.inferred,
        direct: true,
    }
}

// The ledger after a stored call.
pub fn with_call(ledger: Totals, call: &[u8]) -> Totals
    ensures { result ≡ with_call ledger call.now }
{
    let kind = byte_at(call, 0);
    if kind == INSERTION {
        return with_insertion(ledger, call);
    }
    if kind == WITHDRAWING {
        return with_withdrawing(ledger, call);
    }
    if kind < DIRECT {
        return ledger;
    }
    with_direct_call(ledger)
}

// Whether so many points are made and listed as the insertions say.
fn points_are_right(ledger: Totals, counts: Counts) -> bool
    ensures { result ≡ points_are_right ledger counts }
{
    let done = ledger.done as u64;
    let torn = ledger.torn as u64;
    let made = counts.made as u64 == 4 + (done + torn);
    let listed = counts.listed as u64 == 4 + done;
    both(made, listed)
}

// Whether there are so many links, borders and openings. What is to be subtracted is added on the other side.
fn sides_are_right(ledger: Totals, counts: Counts, openings: u16) -> bool
    ensures { result ≡ sides_are_right ledger counts openings }
{
    let inserted = ledger.done as u64 + ledger.torn as u64;
    let opened = ledger.opened as u64;
    let inferred = ledger.inferred as u64;
    let links = counts.links as u64 == 4 + inserted + inferred;
    let borders = counts.borders as u64 + opened == 8 + 2 * inserted;
    let open = openings as u64 + 2 * inferred == opened;
    both(links, both(borders, open))
}

// Whether the counts are what the ledger says. It says nothing where a direct call was made.
fn ledger_is_right(ledger: Totals, counts: Counts, openings: u16) -> bool
    ensures { result ≡ ledger_is_right ledger counts openings }
{
    if ledger.direct {
        return true;
    }
    both(
        points_are_right(ledger, counts),
        sides_are_right(ledger, counts, openings),
    )
}

// Whether what is counted of a map is what the ledger says.
pub fn ledger_holds(ledger: Totals, map: Tmesh) -> bool
    ensures { result ≡ ledger_holds ledger map }
{
    let list = openings(store_of(map.mesh));
    ledger_is_right(ledger, counts(map), list.count)
}
