// Replays the stored lists of calls on a map, and says how many came out right. oracle/README.md has the format of data/cases.
#![tactic(auto)]

ghost use Rattle.std.specs.Prelude.{◌≡◌};
ghost use Rattle.map_replay.specs.Answers.{position_at};

mod answers;

use crate::answers::{
    Judged, judge_cell, judge_counts, judge_evaluation, judge_insertion, judge_knots,
    judge_openings, judge_outcome, judge_ray, map_is_right, where_lent,
};
use big_endian::{after, byte_at, float_at, pair_at};
use cells::cell_points;
use census::counts::counts;
use control_point::refusal::Refusal;
use control_point::sides::wide;
use control_point::small::closeness;
use control_point::t_mesh_direction::TmeshDirection;
use evaluation::evaluation::subs;
use knot_vectors::knots::generate_knot_vectors;
use lent_surface::{lend, lent_value};
use map_insertion::{add_control_point, add_or_withdraw};
use openings::openings::openings;
use pull::set_pull;
use ray::knots::point_knot_vectors;
use ray::ray::cast_ray;
use set_point::{lent_set_point, set_point};
use std::io;
use store::store::Store;
use stored_calls::call::replay_call;
use stored_calls::points::both;
use stored_ledger::{DIRECT, INSERTION, WITHDRAWING, ledger_holds, no_calls, with_call};
use surface::evaluation::Evaluation;
use t_mesh::add::Added;
use t_mesh::t_mesh::{Position, Tmesh, store_of, with_store};

// Where a list's calls begin.
const CALLS: usize = 106;

const RAY: u8 = 1;

const KNOTS: u8 = 2;

const GENERATION: u8 = 4;

const OPENINGS: u8 = 5;

const LENT: u8 = 6;

const SET_POINT: u8 = 7;

const CELL: u8 = 8;

const COUNTS: u8 = 9;

const PULL: u8 = 11;

const LENT_SET_POINT: u8 = 12;

// A call made: the map after it, and how its answer was judged.
#[derive(Clone, Copy)]
struct MapReplayed {
    map: Tmesh,
    judged: Judged,
}

fn position_at(bytes: &[u8], at: usize) -> Position
    ensures { result ≡ position_at bytes.now at }
{
    let place = after(bytes, at);
    Position {
        x: float_at(place, 0),
        y: float_at(place, 8),
        z: float_at(place, 16),
    }
}

// An insertion, by the rule on torn ones that its kind has.
fn insert(kind: u8, call: &[u8], map: Tmesh) -> Added {
    let con = byte_at(call, 1);
    let direction = TmeshDirection::numbered(byte_at(call, 2));
    let ratio = float_at(call, 3);
    let position = position_at(call, 11);
    if kind == WITHDRAWING {
        return add_or_withdraw(map, con, direction, ratio, position);
    }
    add_control_point(map, con, direction, ratio, position)
}

fn replay_insertion(kind: u8, call: &[u8], map: Tmesh) -> MapReplayed {
    let added = insert(kind, call, map);
    let answer = added.answer;
    let judged = judge_insertion(answer, call);
    let next = added.map;
    MapReplayed { map: next, judged }
}

fn replay_evaluation(call: &[u8], map: Tmesh) -> MapReplayed {
    let evaluated = subs(map, float_at(call, 1), float_at(call, 9));
    let answer = evaluated.answer;
    let judged = judge_evaluation(answer, call);
    let next = evaluated.map;
    MapReplayed { map: next, judged }
}

fn replay_set_point(call: &[u8], map: Tmesh) -> MapReplayed {
    let given = set_point(map, float_at(call, 1), float_at(call, 9));
    let answer = given.answer;
    let judged = judge_evaluation(answer, call);
    let next = given.map;
    MapReplayed { map: next, judged }
}

fn replay_cell(call: &[u8], map: Tmesh) -> MapReplayed {
    let asked = cell_points(map, byte_at(call, 1));
    let answer = asked.answer;
    let judged = judge_cell(answer, call);
    let next = asked.map;
    MapReplayed { map: next, judged }
}

fn replay_counts(call: &[u8], map: Tmesh) -> MapReplayed {
    let judged = judge_counts(counts(map), call);
    MapReplayed { map, judged }
}

// What is asked of a lent map: its set-point, or its value.
fn asked_of_lent<'a>(
    kind: u8,
    across: &'a [[f64; 5]; 128],
    upwards: &'a [[f64; 5]; 128],
    places: &'a [[f64; 4]; 128],
    listed: &'a [bool; 128],
    s: f64,
    t: f64,
) -> Result<Evaluation, Refusal> {
    if kind == LENT_SET_POINT {
        return lent_set_point(across, upwards, places, listed, s, t);
    }
    Ok(lent_value(across, upwards, places, listed, s, t))
}

// The arrays start with every number listed, so that what lending leaves in them is seen.
fn replay_lent(kind: u8, call: &[u8], map: Tmesh) -> MapReplayed {
    let row = [1.0; 5];
    let place = [1.0; 4];
    let mut across = [row; 128];
    let mut upwards = [row; 128];
    let mut places = [place; 128];
    let mut listed = [true; 128];
    let lent = lend(&mut across, &mut upwards, &mut places, &mut listed, map);
    let s = float_at(call, 1);
    let t = float_at(call, 9);
    let answer = asked_of_lent(kind, &across, &upwards, &places, &listed, s, t);
    let outcome = lent.outcome;
    let judged = judge_evaluation(where_lent(outcome, answer), call);
    let next = lent.map;
    MapReplayed { map: next, judged }
}

fn replay_generation(call: &[u8], map: Tmesh) -> MapReplayed {
    let generated = generate_knot_vectors(map);
    let outcome = generated.outcome;
    let judged = judge_outcome(outcome, 1, call);
    let next = generated.map;
    MapReplayed { map: next, judged }
}

fn replay_pull(call: &[u8], map: Tmesh) -> MapReplayed {
    let pulled = set_pull(map, byte_at(call, 1), float_at(call, 2));
    let outcome = pulled.outcome;
    let judged = judge_outcome(outcome, 10, call);
    let next = pulled.map;
    MapReplayed { map: next, judged }
}

fn ray_into(call: &[u8], store: Store, buffer: &mut [f64]) -> Judged {
    let direction = TmeshDirection::numbered(byte_at(call, 2));
    let outcome = cast_ray(closeness(), store, byte_at(call, 1), direction, buffer);
    judge_ray(outcome, buffer, call)
}

// The buffer starts with no 0.0, so that a refused ray is seen to leave nothing else.
fn replay_ray(call: &[u8], store: Store) -> Judged {
    let mut buffer = [1.0; 5];
    let length = wide(byte_at(call, 3));
    if 5 < length {
        return Judged {
            right: false,
            bytes: 0,
        };
    }
    ray_into(call, store, &mut buffer[0..length])
}

// A call that reads the points and leaves the map as it is: a ray, the openings, or a point's knots.
fn replay_reading(kind: u8, call: &[u8], store: Store) -> Judged {
    match kind {
        RAY => replay_ray(call, store),
        OPENINGS => judge_openings(openings(store), call),
        _ => judge_knots(
            point_knot_vectors(closeness(), store, byte_at(call, 1)),
            call,
        ),
    }
}

// A call on the map's points: knots that are kept stay kept.
fn replay_direct(kind: u8, call: &[u8], map: Tmesh) -> MapReplayed {
    let replayed = replay_call(kind, call, store_of(map.mesh));
    let store = replayed.store;
    let next = with_store(map, store);
    let judged = Judged {
        right: replayed.right,
        bytes: replayed.bytes,
    };
    MapReplayed { map: next, judged }
}

// A call that asks for a value, a cell or the counts, sets a pull, or builds the knots of all listed points.
fn replay_value(kind: u8, call: &[u8], map: Tmesh) -> MapReplayed {
    match kind {
        SET_POINT => replay_set_point(call, map),
        CELL => replay_cell(call, map),
        COUNTS => replay_counts(call, map),
        PULL => replay_pull(call, map),
        GENERATION => replay_generation(call, map),
        LENT | LENT_SET_POINT => replay_lent(kind, call, map),
        _ => replay_evaluation(call, map),
    }
}

fn replay(kind: u8, call: &[u8], map: Tmesh) -> MapReplayed {
    match kind {
        DIRECT.. => replay_direct(kind - DIRECT, call, map),
        INSERTION | WITHDRAWING => replay_insertion(kind, call, map),
        RAY | KNOTS | OPENINGS => {
            let judged = replay_reading(kind, call, store_of(map.mesh));
            MapReplayed { map, judged }
        }
        _ => replay_value(kind, call, map),
    }
}

// The map of the border weight and the corners that a list begins with.
fn new_map(list: &[u8]) -> Tmesh {
    let bottom_left = position_at(list, 8);
    let bottom_right = position_at(list, 32);
    let top_right = position_at(list, 56);
    let top_left = position_at(list, 80);
    Tmesh::new(
        float_at(list, 0),
        bottom_left,
        bottom_right,
        top_right,
        top_left,
    )
}

// Whether every call of a list answers what is stored, and the last leaves the map that is stored, behind which nothing stands; and where no direct call is among them, whether
// the map has the counts that the stored answers of the insertions say. A list that ends within its calls is wrong.
fn is_right(list: &[u8]) -> bool {
    if list.len() < CALLS {
        return false;
    }
    let mut map = new_map(list);
    let mut ledger = no_calls();
    let mut right = true;
    let mut rest = &list[CALLS..];
    for _ in 0..pair_at(list, 104) {
        let replayed = replay(byte_at(rest, 0), rest, map);
        let judged = replayed.judged;
        if rest.len() < judged.bytes {
            return false;
        }
        right = both(right, judged.right);
        ledger = with_call(ledger, rest);
        map = replayed.map;
        rest = &rest[judged.bytes..];
    }
    let whole = both(right, map_is_right(map, rest));
    both(whole, ledger_holds(ledger, map))
}

fn main(rt: HostRuntime) -> io::Result<()> {
    replay::run(&rt, is_right)
}
