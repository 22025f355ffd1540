// What a call on a map answered, and the map at a list's end, held against stored bytes. specs/Answers.antt says where each number stands.
ghost use Rattle.std.specs.Prelude.{◌≡◌, true, cond, ◌≤◌};
ghost use Rattle.counting.specs.Counting.{count_below};
ghost use Rattle.t_mesh.specs.Tmesh.{listed_in};
ghost use Rattle.map_replay.specs.Answers.{counts_are_right, insertion_judged, floats_are_right, outcome_is_right, bytes_taken, ray_judged, knots_judged, value_is_right, evaluation_judged, where_lent, outcome_judged, cell_is_right, cell_judged, counts_judged};
ghost use Rattle.map_replay.specs.Answers.{entry_byte, entries_are_right, openings_judged, flag_is_at, listing_is_right, position_is_right, place_is_right, places_are_right, row_is_right, rows_are_right, shape_is_right, kept_are_right, map_bytes, map_is_right};

use big_endian::{after, byte_at, number_at, pair_at};
use census::census::Counts;
use control_point::refusal::{Refusal, number_of};
use control_point::sides::wide;
use grid_index::Cell;
use insertion::insertion::Insertion;
use openings::list::Openings;
use ray::knots::{KnotsAnswer, PointKnots};
use store::store::Store;
use stored_calls::points::{both, float_is_at, store_is_right};
use surface::evaluation::Evaluation;
use t_mesh::t_mesh::{Place, Position, Tmesh, is_listed, store_of};

const CAPACITY: u8 = 128;

// How many openings a list has room for.
const OPENINGS_ROOM: usize = 512;

// A place is a position and a pull.
const PLACE_BYTES: usize = 32;

// A row is five knots across and five upwards.
const ROW_BYTES: usize = 80;

// Whether a call answered what is stored, and how many bytes it takes.
#[derive(Clone, Copy)]
pub struct Judged {
    pub right: bool,
    pub bytes: usize,
}

fn counts_are_right(opened: u8, inferred: u8, call: &[u8]) -> bool
    ensures { result ≡ counts_are_right opened inferred call.now }
{
    both(opened == byte_at(call, 36), inferred == byte_at(call, 37))
}

// An insertion: its number, and where it made a point the two counts.
pub fn judge_insertion(answer: Result<Insertion, Refusal>, call: &[u8]) -> Judged
    ensures { result ≡ insertion_judged answer call.now }
{
    let number = byte_at(call, 35);
    match answer {
        Ok(insertion) => match insertion {
            Insertion::Done(opened, inferred) => Judged {
                right: both(number == 0, counts_are_right(opened, inferred, call)),
                bytes: 38,
            },
            Insertion::Torn(opened, inferred) => Judged {
                right: both(number == 8, counts_are_right(opened, inferred, call)),
                bytes: 38,
            },
        },
        Err(refusal) => Judged {
            right: number == refusal.number(),
            bytes: 36,
        },
    }
}

// Whether floats have the bits that the bytes begin with.
fn floats_are_right(floats: &[f64], bytes: &[u8]) -> bool
    ensures { result ≡ floats_are_right floats.now bytes.now }
{
    let mut right = true;
    for n in 0..floats.len() {
        right = both(right, float_is_at(floats[n], bytes, n * 8));
    }
    right
}

// Whether an outcome has the number, and the floats are those that the bytes begin with; refused, they are all 0.0.
fn outcome_is_right(outcome: Result<(), Refusal>, floats: &[f64], number: u8, bytes: &[u8]) -> bool
    ensures { result ≡ outcome_is_right outcome floats.now number bytes.now }
{
    match outcome {
        Ok(()) => both(number == 0, floats_are_right(floats, bytes)),
        Err(refusal) => { both(number == refusal.number(), floats_are_right(floats, b"")) }
    }
}

fn bytes_taken(outcome: Result<(), Refusal>, done: usize, refused: usize) -> usize
    ensures { result ≡ bytes_taken outcome done refused }
{
    match outcome {
        Ok(()) => done,
        Err(_) => refused,
    }
}

// A ray: its number, and the entries.
pub fn judge_ray(outcome: Result<(), Refusal>, entries: &[f64], call: &[u8]) -> Judged
    ensures { result ≡ ray_judged outcome entries.now call.now }
{
    let right = outcome_is_right(outcome, entries, byte_at(call, 4), after(call, 5));
    let bytes = bytes_taken(outcome, wide(byte_at(call, 3)) * 8 + 5, 5);
    Judged { right, bytes }
}

// A point's knots: the number, and the knots across and upwards.
pub fn judge_knots(answer: KnotsAnswer, call: &[u8]) -> Judged
    ensures { result ≡ knots_judged answer call.now }
{
    let outcome = answer.outcome;
    let s = answer.knots.s;
    let t = answer.knots.t;
    let number = byte_at(call, 2);
    let across = outcome_is_right(outcome, &s, number, after(call, 3));
    let upwards = outcome_is_right(outcome, &t, number, after(call, 43));
    let right = both(across, upwards);
    let bytes = bytes_taken(outcome, 83, 3);
    Judged { right, bytes }
}

// Whether the position and the total weight are those that the bytes begin with.
fn value_is_right(value: Evaluation, bytes: &[u8]) -> bool
    ensures { result ≡ value_is_right value bytes.now }
{
    let x = float_is_at(value.x, bytes, 0);
    let y = float_is_at(value.y, bytes, 8);
    let z = float_is_at(value.z, bytes, 16);
    both(both(x, both(y, z)), float_is_at(value.weight, bytes, 24))
}

// An evaluation: its number, and the value.
pub fn judge_evaluation(answer: Result<Evaluation, Refusal>, call: &[u8]) -> Judged
    ensures { result ≡ evaluation_judged answer call.now }
{
    let number = byte_at(call, 17);
    match answer {
        Ok(value) => Judged {
            right: both(number == 0, value_is_right(value, after(call, 18))),
            bytes: 50,
        },
        Err(refusal) => Judged {
            right: number == refusal.number(),
            bytes: 18,
        },
    }
}

// What was asked of a lent map, or why none was lent.
pub fn where_lent(
    outcome: Result<(), Refusal>,
    answer: Result<Evaluation, Refusal>,
) -> Result<Evaluation, Refusal>
    ensures { result ≡ where_lent outcome answer }
{
    match outcome {
        Ok(()) => answer,
        Err(refusal) => Err(refusal),
    }
}

// A call that answers a number alone, which stands behind so many bytes: the knots of all listed points, or the setting of a pull.
pub fn judge_outcome(outcome: Result<(), Refusal>, behind: u8, call: &[u8]) -> Judged
    ensures { result ≡ outcome_judged outcome behind call.now }
{
    let at = wide(behind);
    let right = number_of(&outcome) == byte_at(call, at);
    let bytes = at + 1;
    Judged { right, bytes }
}

// Whether both words of a cell and their count are those that the bytes begin with.
fn cell_is_right(words: Cell, bytes: &[u8]) -> bool
    ensures { result ≡ cell_is_right words bytes.now }
{
    let first = words.first == number_at(bytes, 0);
    let second = words.second == number_at(bytes, 8);
    both(both(first, second), words.count == byte_at(bytes, 16))
}

// A cell: its number, and both words and their count.
pub fn judge_cell(answer: Result<Cell, Refusal>, call: &[u8]) -> Judged
    ensures { result ≡ cell_judged answer call.now }
{
    let number = byte_at(call, 2);
    match answer {
        Ok(words) => Judged {
            right: both(number == 0, cell_is_right(words, after(call, 3))),
            bytes: 20,
        },
        Err(refusal) => Judged {
            right: number == refusal.number(),
            bytes: 3,
        },
    }
}

// The counts of a map: the points made, the points listed, the links and the borders.
pub fn judge_counts(counts: Counts, call: &[u8]) -> Judged
    ensures { result ≡ counts_judged counts call.now }
{
    let made = counts.made == byte_at(call, 1);
    let listed = counts.listed == byte_at(call, 2);
    let links = counts.links as usize == pair_at(call, 3);
    let borders = counts.borders as usize == pair_at(call, 5);
    let right = both(both(made, listed), both(links, borders));
    Judged { right, bytes: 7 }
}

// 1 where it holds, else 0.
fn one_where(holds: bool) -> usize
    ensures { result ≡ cond holds 1 0 }
{
    if holds {
        return 1;
    }
    0
}

// The byte at a place where so many are stored; behind them 0.
fn entry_byte(stored: usize, bytes: &[u8], at: usize) -> u8
    ensures { result ≡ entry_byte stored bytes.now at }
{
    if at < stored {
        return byte_at(bytes, at);
    }
    0
}

// Whether each entry of a list of openings is the stored one.
fn entries_are_right(openings: Openings, bytes: &[u8]) -> bool
    ensures { result ≡ entries_are_right 512 openings bytes.now }
{
    let stored = openings.count as usize * 2;
    let mut right = true;
    for i in 0..OPENINGS_ROOM {
        let point = openings.points[i];
        let direction = openings.directions[i];
        let own = both(
            point == entry_byte(stored, bytes, i * 2),
            direction == entry_byte(stored, bytes, i * 2 + 1),
        );
        right = both(right, own);
    }
    right
}

// A list of openings: how many there are, which in which order, and what stands behind them.
pub fn judge_openings(openings: Openings, call: &[u8]) -> Judged
    ensures { result ≡ openings_judged openings call.now }
{
    let count = openings.count as usize;
    let counted = count == pair_at(call, 1);
    let entries = entries_are_right(openings, after(call, 3));
    let right = both(counted, entries);
    let bytes = count * 2 + 3;
    Judged { right, bytes }
}

// Whether a byte says what a flag is.
fn flag_is_at(flag: bool, bytes: &[u8], at: usize) -> bool
    ensures { result ≡ flag_is_at flag bytes.now at }
{
    if flag {
        return byte_at(bytes, at) == 1;
    }
    byte_at(bytes, at) == 0
}

// Whether the bytes begin with a flag for each point made: whether it is listed.
fn listing_is_right(listed: [bool; 128], made: u8, bytes: &[u8]) -> bool
    ensures { result ≡ listing_is_right made listed bytes.now }
{
    let mut right = true;
    for n in 0..made {
        right = both(right, flag_is_at(is_listed(listed, n), bytes, wide(n)));
    }
    right
}

// Whether a position is the one that the bytes begin with.
fn position_is_right(position: Position, bytes: &[u8]) -> bool
    ensures { result ≡ position_is_right position bytes.now }
{
    let x = float_is_at(position.x, bytes, 0);
    let y = float_is_at(position.y, bytes, 8);
    both(x, both(y, float_is_at(position.z, bytes, 16)))
}

// Whether a place is the one that the bytes begin with: its position, then its pull.
fn place_is_right(place: Place, bytes: &[u8]) -> bool
    ensures { result ≡ place_is_right place bytes.now }
{
    let position = place.position;
    let placed = position_is_right(position, bytes);
    both(placed, float_is_at(place.pull, bytes, 24))
}

// Whether the bytes begin with the place of each point made.
fn places_are_right(places: [Place; 128], made: u8, bytes: &[u8]) -> bool
    requires { made ≤ 128 }
    ensures { result ≡ places_are_right made places bytes.now }
{
    let mut right = true;
    for n in 0..wide(made) {
        let place = places[n];
        right = both(right, place_is_right(place, after(bytes, n * PLACE_BYTES)));
    }
    right
}

// Whether a point's knots are those that the bytes begin with.
fn row_is_right(knots: PointKnots, bytes: &[u8]) -> bool
    ensures { result ≡ row_is_right knots bytes.now }
{
    let s = knots.s;
    let t = knots.t;
    both(
        floats_are_right(&s, bytes),
        floats_are_right(&t, after(bytes, 40)),
    )
}

// A listed point's knots are stored, another's are not.
fn listed_row_is_right(listed: bool, knots: PointKnots, bytes: &[u8]) -> bool
    ensures { result ≡ cond listed (row_is_right knots bytes.now) true }
{
    if listed {
        return row_is_right(knots, bytes);
    }
    true
}

// How many numbers below one are listed.
fn listed_below(listed: [bool; 128], n: u8) -> usize
    ensures value { result ≡ count_below n (listed_in listed) }
    ensures bound { result ≤ n }
{
    let mut count: usize = 0;
    for i in 0..n {
        count += one_where(is_listed(listed, i));
    }
    count
}

// Whether the bytes begin with the knots of each listed point.
fn rows_are_right(listed: [bool; 128], knots: [PointKnots; 128], made: u8, bytes: &[u8]) -> bool
    requires { made ≤ 128 }
    ensures { result ≡ rows_are_right made listed knots bytes.now }
{
    let mut right = true;
    for n in 0..made {
        let row = knots[n as usize];
        let place = listed_below(listed, n) * ROW_BYTES;
        let own = listed_row_is_right(is_listed(listed, n), row, after(bytes, place));
        right = both(right, own);
    }
    right
}

// Whether the bytes begin with a store, a listing, and whether knots are kept.
fn shape_is_right(store: Store, listed: [bool; 128], kept: bool, bytes: &[u8]) -> bool
    ensures { result ≡ shape_is_right store listed kept bytes.now }
{
    let made = store.made;
    let points = store_is_right(store, bytes);
    let flags = after(bytes, wide(made) * 56 + 1);
    let listing = listing_is_right(listed, made, flags);
    both(both(points, listing), flag_is_at(kept, flags, wide(made)))
}

// Where knots are kept, whether the bytes begin with those of each listed point.
fn kept_are_right(map: Tmesh, bytes: &[u8]) -> bool
    requires { map.mesh.made ≤ 128 }
    ensures { result ≡ kept_are_right map bytes.now }
{
    let listed = map.mesh.listed;
    let knots = map.knots;
    if map.kept {
        return rows_are_right(listed, knots, map.mesh.made, bytes);
    }
    true
}

// How many bytes a map takes.
fn map_bytes(listed: [bool; 128], kept: bool, made: u8) -> usize
    ensures { result ≡ map_bytes listed kept made }
{
    let bytes = wide(made) * 89 + 2;
    if kept {
        return bytes + listed_below(listed, made) * ROW_BYTES;
    }
    bytes
}

// Whether a map is what the bytes are, and nothing stands behind it: its shape, the places of its points, and the knots kept.
pub fn map_is_right(map: Tmesh, bytes: &[u8]) -> bool
    ensures { result ≡ map_is_right map bytes.now }
{
    let made = map.mesh.made;
    if CAPACITY < made {
        return false;
    }
    let listed = map.mesh.listed;
    let places = map.mesh.places;
    let whole = bytes.len() == map_bytes(listed, map.kept, made);
    let shape = shape_is_right(store_of(map.mesh), listed, map.kept, bytes);
    let placed = places_are_right(places, made, after(bytes, wide(made) * 57 + 2));
    let kept = kept_are_right(map, after(bytes, wide(made) * 89 + 2));
    both(both(whole, shape), both(placed, kept))
}
