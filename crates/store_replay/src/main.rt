// Replays the stored lists of direct calls on a store, and says how many came out right. oracle/README.md has the format of data/cases.
#![tactic(auto)]

ghost use Rattle.std.specs.Prelude.{◌≡◌};
ghost use Rattle.store_replay.specs.List.{is_store, is_right};

use big_endian::{after, byte_at, pair_at};
use control_point::sides::wide;
use std::io;
use store::store::{Store, empty_store};
use stored_calls::call::replay_call;
use stored_calls::points::{both, store_is_right};

// Whether bytes are a store, and nothing stands behind it.
fn is_store(store: Store, bytes: &[u8]) -> bool
    ensures { result ≡ is_store store bytes.now }
{
    let whole = bytes.len() == wide(store.made) * 56 + 1;
    both(whole, store_is_right(store, bytes))
}

// Whether every call of a list answers what is stored, and the last leaves the store that is stored.
fn is_right(list: &[u8]) -> bool
    ensures { result ≡ is_right list.now }
{
    let mut store = empty_store();
    let mut right = true;
    let mut rest = after(list, 2);
    for _ in 0..pair_at(list, 0) {
        let replayed = replay_call(byte_at(rest, 0), rest, store);
        right = both(right, replayed.right);
        store = replayed.store;
        rest = after(rest, replayed.bytes);
    }
    both(right, is_store(store, rest))
}

fn main(rt: HostRuntime) -> io::Result<()> {
    replay::run(&rt, is_right)
}
