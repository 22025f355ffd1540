// What bench/ times. Each function does one piece of work so many times on the map of a list of edits, and answers a number that
// depends on every turn. An edit is 34 bytes: point, direction, ratio, position, as in a map file. Behind the edits 8 bytes may stand: a pull, which every point of the map has in an evaluation.
// Most functions have a loop of their own, where one function over a closure would do. A turn is timed with its copies of the map: through a closure the compiler makes more of them in one function and fewer in another, and copies knots too.
#![tactic(auto)]

use basis::basis_function;
use big_endian::{byte_at, float_at};
use cells::cell_points;
use census::census::Counts;
use census::counts::counts;
use control_point::refusal::{Refusal, number_of};
use control_point::sides::LentSides;
use control_point::small::closeness;
use control_point::t_mesh_direction::TmeshDirection;
use evaluation::evaluation::subs;
use grid_index::{Cell, cell_of, index_of};
use knot_vectors::knots::generate_knot_vectors;
use lent_surface::{lend, lent_value};
use map_insertion::add_control_point;
use mesh_insertion::insert_into;
use navigation::walk::{Walk, navigate};
use openings::list::Openings;
use openings::openings::openings;
use pull::set_pull;
use ray::ray::cast;
use store::walk::navigate_until_con;
use surface::evaluation::Evaluation;
use t_mesh::t_mesh::{Mesh, Place, Position, Tmesh, store_of};

const EDIT_BYTES: usize = 34;

const PULL_BYTES: usize = 8;

// A total that no bench comes to, which the compiler cannot know.
const NEVER: u64 = 0xffff_ffff;

fn position(x: f64, y: f64, z: f64) -> Position {
    Position { x, y, z }
}

// A fresh map: border 1.0, over the unit square, with the bottom edge at height 0.0 and the top edge at 1.0.
fn fresh() -> Tmesh {
    Tmesh::new(
        1.0,
        position(0.0, 0.0, 0.0),
        position(1.0, 0.0, 0.0),
        position(1.0, 1.0, 1.0),
        position(0.0, 1.0, 1.0),
    )
}

// An edit, read from its bytes.
#[derive(Clone, Copy)]
struct Edit {
    point: u8,
    direction: TmeshDirection,
    ratio: f64,
    position: Position,
}

fn edit_in(bytes: &[u8]) -> Edit {
    Edit {
        point: byte_at(bytes, 0),
        direction: TmeshDirection::numbered(byte_at(bytes, 1)),
        ratio: float_at(bytes, 2),
        position: position(
            float_at(bytes, 10),
            float_at(bytes, 18),
            float_at(bytes, 26),
        ),
    }
}

// The mesh after one edit.
fn edited_mesh(mesh: Mesh, edit: Edit) -> Mesh {
    insert_into(
        closeness(),
        mesh,
        edit.point,
        edit.direction,
        edit.ratio,
        edit.position,
    )
    .mesh
}

// The mesh after all edits. It is no instance of one function with `map_of`: see there.
fn mesh_of(edits: &[u8]) -> Mesh {
    let mut mesh = fresh().mesh;
    for bytes in edits.chunks_exact(EDIT_BYTES) {
        mesh = edited_mesh(mesh, edit_in(bytes));
    }
    mesh
}

// The map after one edit.
fn edited(map: Tmesh, edit: Edit) -> Tmesh {
    add_control_point(map, edit.point, edit.direction, edit.ratio, edit.position).map
}

// The map after all edits. It is a loop, since a `fold` over meshes and maps alike copies the map twice more.
fn map_of(edits: &[u8]) -> Tmesh {
    let mut map = fresh();
    for bytes in edits.chunks_exact(EDIT_BYTES) {
        map = edited(map, edit_in(bytes));
    }
    map
}

// The pull behind the edits; 1.0 where none stands there.
fn pull_behind(edits: &[u8]) -> f64 {
    let behind = edits.chunks_exact(EDIT_BYTES).remainder();
    if behind.len() == PULL_BYTES {
        float_at(behind, 0)
    } else {
        1.0
    }
}

// The map after all edits, every point with the pull behind them.
fn pulled_map_of(edits: &[u8]) -> Tmesh {
    let pull = pull_behind(edits);
    let mut map = map_of(edits);
    for n in 0..128 {
        map = set_pull(map, n, pull).map;
    }
    map
}

// A count with another number added, kept below 2 to the 33rd.
fn counted(total: u64, more: u64) -> u64 {
    total % 0x1_0000_0000 + more % 0x1_0000_0000
}

// The edits run from a fresh mesh, again and again: how many points stand made in the end.
#[unsafe(no_mangle)]
pub extern "C" fn bench_insertions(edits: &[u8], repeats: u64) -> u64 {
    let mut total = 0;
    for _ in 0..repeats {
        total = counted(total, u64::from(mesh_of(edits).made));
    }
    total
}

// The same on a map, its knots carried along.
#[unsafe(no_mangle)]
pub extern "C" fn bench_map_insertions(edits: &[u8], repeats: u64) -> u64 {
    let mut total = 0;
    for _ in 0..repeats {
        total = counted(total, u64::from(map_of(edits).mesh.made));
    }
    total
}

// The knots of all listed points built anew.
#[unsafe(no_mangle)]
pub extern "C" fn bench_knots(edits: &[u8], repeats: u64) -> u64 {
    let mut map = map_of(edits);
    for _ in 0..repeats {
        map = generate_knot_vectors(map).map;
    }
    u64::from(map.kept)
}

// The index of kept knots built anew: the sum of the counts of some of its cells.
#[unsafe(no_mangle)]
pub extern "C" fn bench_indices(edits: &[u8], repeats: u64) -> u64 {
    let map = generate_knot_vectors(map_of(edits)).map;
    let knots = map.knots;
    let mut listed = map.mesh.listed;
    let mut cell = 0;
    let mut total = 0;
    for _ in 0..repeats {
        cell = cell_of(index_of(listed, knots), cell).count;
        listed[0] = cell != 0;
        total = counted(total, u64::from(cell));
    }
    total
}

fn count_in(answer: Result<Cell, Refusal>) -> u8 {
    match answer {
        Ok(words) => words.count,
        Err(_) => 255,
    }
}

// The points of a cell with knots and index kept: the sum of their counts.
#[unsafe(no_mangle)]
pub extern "C" fn bench_cell_points(edits: &[u8], repeats: u64) -> u64 {
    let mut map = map_of(edits);
    let mut cell = 0;
    let mut total = 0;
    for _ in 0..repeats {
        let asked = cell_points(map, cell);
        map = asked.map;
        cell = count_in(asked.answer);
        total = counted(total, u64::from(cell));
    }
    total
}

// How many points are made for the next turn: as many, by a test that the total decides.
fn next_made(made: u8, total: u64) -> u8 {
    if total == NEVER { 0 } else { made }
}

// Every count of a map is in the sum.
fn sum_of(answer: Counts) -> u64 {
    answer.made as u64 + answer.listed as u64 + answer.links as u64 + answer.borders as u64
}

// The counts of a map: their sum. Corner 0 is listed for the next turn by a test of the total too.
#[unsafe(no_mangle)]
pub extern "C" fn bench_counts(edits: &[u8], repeats: u64) -> u64 {
    let mut map = map_of(edits);
    let mut total = 0;
    for _ in 0..repeats {
        total = counted(total, sum_of(counts(map)));
        map.mesh.listed[0] = total != NEVER;
        map.mesh.made = next_made(map.mesh.made, total);
    }
    total
}

// How many are listed, and what stands at a place of the list.
fn number_in(list: Openings, place: u64) -> u64 {
    let at = (place % 512) as usize;
    let with_point = counted(list.count as u64, u64::from(list.points[at]));
    counted(with_point, u64::from(list.directions[at]))
}

// The openings of a store listed: the sum of their counts and of one opening of each list.
#[unsafe(no_mangle)]
pub extern "C" fn bench_openings(edits: &[u8], repeats: u64) -> u64 {
    let mut store = store_of(map_of(edits).mesh);
    let mut total = 0;
    for turn in 0..repeats {
        total = counted(total, number_in(openings(store), turn));
        store.made = next_made(store.made, total);
    }
    total
}

// The pull of corner 0 set, each time by the one before: the bits of the last, with the sum of the answer numbers.
#[unsafe(no_mangle)]
pub extern "C" fn bench_settings(edits: &[u8], repeats: u64) -> u64 {
    let mut map = map_of(edits);
    let mut total = 0;
    for _ in 0..repeats {
        let before = map.mesh.places[0].pull;
        let pulled = set_pull(map, 0, before * 0.5 + 0.25);
        let outcome = pulled.outcome;
        map = pulled.map;
        total = counted(total, u64::from(number_of(&outcome)));
    }
    counted(total, float64::to_bits(map.mesh.places[0].pull))
}

fn height(answer: Result<Evaluation, Refusal>) -> f64 {
    match answer {
        Ok(value) => value.z,
        Err(_) => 2.0,
    }
}

// Where the next value is taken, by the one before: from 0.25 to 0.3125 where that is from 0.0 to 1.0.
fn next_place(value: f64) -> f64 {
    0.25 + value * 0.0625
}

// Evaluations with knots kept: the bits of the sum of their heights.
#[unsafe(no_mangle)]
pub extern "C" fn bench_evaluations(edits: &[u8], repeats: u64) -> u64 {
    let mut map = pulled_map_of(edits);
    let mut s = 0.25;
    let mut sum = 0.0;
    for _ in 0..repeats {
        let evaluated = subs(map, s, 0.5);
        map = evaluated.map;
        let z = height(evaluated.answer);
        sum = sum + z;
        s = next_place(z);
    }
    float64::to_bits(sum)
}

// Evaluations over the map lent once: the bits of the sum of their heights.
#[unsafe(no_mangle)]
pub extern "C" fn bench_lent_evaluations(edits: &[u8], repeats: u64) -> u64 {
    let map = pulled_map_of(edits);
    let mut across = [[0.0; 5]; 128];
    let mut upwards = [[0.0; 5]; 128];
    let mut places = [[0.0; 4]; 128];
    let mut listed = [false; 128];
    lend(&mut across, &mut upwards, &mut places, &mut listed, map);
    let mut s = 0.25;
    let mut sum = 0.0;
    for _ in 0..repeats {
        let z = lent_value(&across, &upwards, &places, &listed, s, 0.5).z;
        sum = sum + z;
        s = next_place(z);
    }
    float64::to_bits(sum)
}

// A walk's moves.
fn moves_of(walk: Result<Walk, Refusal>) -> u8 {
    match walk {
        Ok(walk) => walk.moves,
        Err(_) => 0,
    }
}

// Where the next turn starts: at 0, by a test that the number before decides.
fn next_start(number: u8) -> u8 {
    if number == 255 { 1 } else { 0 }
}

// Work from corner 0, so many times: the sum of its numbers.
fn total_from_corner<F: Fn(u8) -> u8>(repeats: u64, number_from: F) -> u64
    requires { F.IsAlwaysCallable number_from }
{
    let mut start = 0;
    let mut total = 0;
    for _ in 0..repeats {
        let number = number_from(start);
        start = next_start(number);
        total = counted(total, u64::from(number));
    }
    total
}

// Walks Right from corner 0, watching Up, on a store by value: the sum of their moves.
#[unsafe(no_mangle)]
pub extern "C" fn bench_walks(edits: &[u8], repeats: u64) -> u64 {
    let store = store_of(map_of(edits).mesh);
    total_from_corner(repeats, |start| {
        moves_of(navigate_until_con(store, start, TmeshDirection::Right, TmeshDirection::Up))
    })
}

// The same walks over lent sides.
#[unsafe(no_mangle)]
pub extern "C" fn bench_lent_walks(edits: &[u8], repeats: u64) -> u64 {
    let mesh = map_of(edits).mesh;
    let sides = LentSides::of_points(mesh.points);
    let made = mesh.made;
    total_from_corner(repeats, |start| {
        moves_of(navigate(
            &sides,
            made,
            start,
            TmeshDirection::Right,
            TmeshDirection::Up,
        ))
    })
}

// The answer number of a ray of length 2 Right.
fn ray_number(sides: &LentSides, made: u8, start: u8) -> u8 {
    let mut entries = [0.0; 2];
    let outcome = cast(
        closeness(),
        sides,
        made,
        start,
        TmeshDirection::Right,
        &mut entries,
    );
    number_of(&outcome)
}

// Rays of length 2 Right from corner 0, over lent sides: the sum of their answer numbers.
#[unsafe(no_mangle)]
pub extern "C" fn bench_rays(edits: &[u8], repeats: u64) -> u64 {
    let mesh = map_of(edits).mesh;
    let sides = LentSides::of_points(mesh.points);
    let made = mesh.made;
    total_from_corner(repeats, |start| ray_number(&sides, made, start))
}

// Basis functions of a corner's knots: the bits of the sum.
#[unsafe(no_mangle)]
pub extern "C" fn bench_bases(edits: &[u8], repeats: u64) -> u64 {
    let knots = [-1.0, -1.0, 0.0, 1.0, 2.0];
    let mut u = 0.5;
    let mut sum = 0.0;
    for _ in 0..repeats {
        let weight = basis_function(u, knots);
        sum = sum + weight;
        u = next_place(weight);
    }
    float64::to_bits(sum)
}
