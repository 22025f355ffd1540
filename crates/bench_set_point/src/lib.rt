// What bench/ times of the set-point, on the map of a map file. It stands apart from bench_host as bench_report does: it calls `subs` too (bench/README.md).
#![tactic(auto)]

use control_point::refusal::Refusal;
use lent_surface::lend;
use map_format::format::validate;
use map_run::run_edits;
use set_point::{lent_set_point, set_point};
use surface::evaluation::Evaluation;
use t_mesh::t_mesh::Tmesh;

// The map of a file; of one that is refused, without an edit.
fn map_of(file: &[u8]) -> Tmesh {
    let mut notes = [0u8; 0];
    run_edits(file, validate(file).unwrap_or(0), &mut notes)
}

// Where the next set-point is taken, by the one before: from 0.25 to 0.3125 on a map in 0 to 1.
fn next_place(answer: Result<Evaluation, Refusal>) -> f64 {
    match answer {
        Ok(value) => 0.25 + value.z * 0.0625,
        Err(_) => 0.25,
    }
}

// Set-points with knots kept, of a map by value: the bits of the last place. A turn is timed with its copies of the map, of which the compiler makes other ones where both loops are one function over a closure.
#[unsafe(no_mangle)]
pub extern "C" fn bench_set_points(file: &[u8], repeats: u64) -> u64 {
    let mut map = map_of(file);
    let mut s = 0.25;
    for _ in 0..repeats {
        let given = set_point(map, s, 0.5);
        map = given.map;
        s = next_place(given.answer);
    }
    float64::to_bits(s)
}

// The same over the map lent once.
#[unsafe(no_mangle)]
pub extern "C" fn bench_lent_set_points(file: &[u8], repeats: u64) -> u64 {
    let map = map_of(file);
    let mut across = [[0.0; 5]; 128];
    let mut upwards = [[0.0; 5]; 128];
    let mut places = [[0.0; 4]; 128];
    let mut listed = [false; 128];
    lend(&mut across, &mut upwards, &mut places, &mut listed, map);
    let mut s = 0.25;
    for _ in 0..repeats {
        s = next_place(lent_set_point(&across, &upwards, &places, &listed, s, 0.5));
    }
    float64::to_bits(s)
}
