// One stored call: its kind, its arguments, and the answer that it must give.
ghost use Rattle.std.specs.Prelude.{◌≡◌, ◌<◌};
ghost use Rattle.stored_calls.specs.Call.{direction_at, change, answer_place, settled, walk_is_right, walk_bytes, replay_walk, replay_call};

use crate::points::{both, has_bits};
use big_endian::{byte_at, float_at, number_at};
use connection::connect::connect;
use control_point::refusal::{Refusal, number_of};
use control_point::t_mesh_direction::TmeshDirection;
use disconnection::remove::remove_connection;
use edge::coordinates::set_knot_coordinates;
use edge::edge::{remove_edge_condition, set_edge_con_weight};
use navigation::walk::Walk;
use store::store::{Changed, Store, make_loose};
use store::walk::navigate_until_con;

// A call made: the store after it, whether it answered what is stored, and how many bytes it takes.
#[derive(Clone, Copy)]
pub struct Replayed {
    pub store: Store,
    pub right: bool,
    pub bytes: usize,
}

const NAVIGATE: u8 = 6;

fn direction_at(call: &[u8], at: usize) -> TmeshDirection
    ensures { result ≡ direction_at call.now at }
{
    TmeshDirection::numbered(byte_at(call, at))
}

// The call of a kind that changes the store, made.
fn changed_by(kind: u8, call: &[u8], store: Store) -> Changed
    ensures { result ≡ change kind call.now store }
{
    if kind == 0 {
        return make_loose(store, float_at(call, 1));
    }
    let point = byte_at(call, 1);
    if kind == 1 {
        let direction = direction_at(call, 3);
        return connect(store, point, byte_at(call, 2), direction, float_at(call, 4));
    }
    if kind == 5 {
        return set_knot_coordinates(store, point, float_at(call, 2), float_at(call, 10));
    }
    let direction = direction_at(call, 2);
    if kind == 2 {
        return remove_connection(store, point, direction);
    }
    if kind == 3 {
        return remove_edge_condition(store, point, direction);
    }
    set_edge_con_weight(store, point, direction, float_at(call, 3))
}

// Where the answer of such a call stands.
fn answer_place(kind: u8) -> usize
    ensures { result ≡ answer_place kind }
{
    match kind {
        0 => 9,
        1 => 12,
        2 => 3,
        3 => 3,
        5 => 18,
        _ => 11,
    }
}

// What came of a call, held against the answer at a place.
fn settle(changed: Changed, call: &[u8], place: usize) -> Replayed
    requires { place < 256 }
    ensures { result ≡ settled changed call.now place }
{
    let outcome = changed.outcome;
    let store = changed.store;
    let right = number_of(&outcome) == byte_at(call, place);
    let bytes = place + 1;
    Replayed {
        store,
        right,
        bytes,
    }
}

// Whether a walk answered a number, and of one that was not refused the point, the moves and the bits of the sum.
fn walk_is_right(walk: Result<Walk, Refusal>, number: u8, point: u8, moves: u8, bits: u64) -> bool
    ensures { result ≡ walk_is_right walk number point moves bits }
{
    match walk {
        Ok(end) => both(
            both(number == 0, point == end.at),
            both(moves == end.moves, has_bits(end.sum, bits)),
        ),
        Err(refusal) => number == refusal.number(),
    }
}

// How many bytes a stored walk takes: more, where a point was reached.
fn walk_bytes(number: u8) -> usize
    ensures { result ≡ walk_bytes number }
{
    if number == 0 {
        return 15;
    }
    5
}

fn replay_walk(call: &[u8], store: Store) -> Replayed
    ensures { result ≡ replay_walk call.now store }
{
    let travel = direction_at(call, 2);
    let watch = direction_at(call, 3);
    let walk = navigate_until_con(store, byte_at(call, 1), travel, watch);
    let number = byte_at(call, 4);
    let right = walk_is_right(
        walk,
        number,
        byte_at(call, 5),
        byte_at(call, 6),
        number_at(call, 7),
    );
    let bytes = walk_bytes(number);
    Replayed {
        store,
        right,
        bytes,
    }
}

// A stored call of a kind, made.
pub fn replay_call(kind: u8, call: &[u8], store: Store) -> Replayed
    ensures { result ≡ replay_call kind call.now store }
{
    if kind == NAVIGATE {
        return replay_walk(call, store);
    }
    settle(changed_by(kind, call, store), call, answer_place(kind))
}
