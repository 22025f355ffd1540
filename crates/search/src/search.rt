// The search for an inferred link, over lent sides.
ghost use Rattle.std.specs.Prelude.{◌≡◌};
ghost use Rattle.std.specs.Float.{binary64};
ghost use Rattle.std.specs.Float.Ieee.{of_bits};
ghost use Rattle.control_point.specs.Connect.{connectable};
ghost use Rattle.control_point.specs.Sides.{lent_sides};
ghost use Rattle.search.specs.Search.{found_told, after_connecting, judge_at, seek_from, find_inferred_connection};
ghost use Rattle.search.specs.Table.{search_table};

use control_point::refusal::Refusal;
use control_point::sides::LentSides;
use control_point::small::so_small;
use control_point::t_mesh_control_point::{
    LinkEnd, Side, is_link, is_made, is_opening, side_refusal,
};
use control_point::t_mesh_direction::TmeshDirection;
use navigation::walk::navigate;

// What the search does at a point that it has moved to.
#[derive(Clone, Copy, Debug, PartialEq, Eq)]
pub enum Judged {
    On,
    Here,
    Ends,
}

// Whether the two points may be connected.
#[tactic(auto, unfolding(control_point::specs::Connect::connectable))]
fn connect_test(
    sides: &LentSides,
    made: u8,
    first: u8,
    other: u8,
    direction: TmeshDirection,
) -> Result<(), Refusal>
    ensures { result ≡ connectable (lent_sides sides.now) made first other direction }
{
    if !is_made(made, first) {
        return Err(Refusal::NoPoint);
    }
    if !is_made(made, other) {
        return Err(Refusal::NoPoint);
    }
    if first == other {
        return Err(Refusal::Itself);
    }
    if !is_opening(sides.side_at(first, direction)) {
        return Err(Refusal::Taken);
    }
    if !is_opening(sides.side_at(other, direction.flip())) {
        return Err(Refusal::Taken);
    }
    Ok(())
}

// A taken side is passed over.
fn after_connecting(outcome: Result<(), Refusal>) -> Result<Judged, Refusal>
    ensures { result ≡ after_connecting outcome }
{
    match outcome {
        Ok(()) => Ok(Judged::Here),
        Err(refusal) => {
            if refusal.number() == 5 {
                Ok(Judged::On)
            } else {
                Err(refusal)
            }
        }
    }
}

#[tactic(auto, using(crate::proofs::SearchLaws::judge_unmade, crate::proofs::SearchLaws::judge_near, crate::proofs::SearchLaws::judge_far))]
fn judge(
    closeness: f64,
    sides: &LentSides,
    made: u8,
    p: u8,
    f: TmeshDirection,
    at: u8,
    measure: f64,
    sum: f64,
) -> Result<Judged, Refusal>
    ensures { result ≡ judge_at closeness (lent_sides sides.now) made p f at measure sum }
{
    if !is_made(made, at) {
        return Err(Refusal::NoPoint);
    }
    if so_small(closeness, measure - sum) {
        return after_connecting(connect_test(sides, made, p, at, f));
    }
    if measure < sum {
        return Ok(Judged::Ends);
    }
    if is_link(sides.side_at(at, f.flip())) {
        return Ok(Judged::Ends);
    }
    Ok(Judged::On)
}

// Moves from a point in anticlockwise(f), and judges each point on the way.
#[tactic(auto, using(crate::proofs::Links::turn_refused, crate::proofs::Links::turn_judged, crate::proofs::SearchLaws::seek_ring))]
fn seek(
    closeness: f64,
    sides: &LentSides,
    made: u8,
    p: u8,
    f: TmeshDirection,
    start: u8,
    measure: f64,
    interval: f64,
) -> Result<Option<LinkEnd>, Refusal>
    ensures { result ≡ seek_from made closeness (lent_sides sides.now) made p f start measure (of_bits binary64 0) interval }
{
    let along = f.anti_clockwise();
    let mut at = start;
    let mut sum = 0.0;
    for moves in 0..made {
        let side = sides.side_at(at, along);
        let Side::Link(n, k) = side else {
            return Err(side_refusal(side));
        };
        at = n;
        sum = sum + k;
        let judged = judge(closeness, sides, made, p, f, at, measure, sum)?;
        match judged {
            Judged::On => {}
            Judged::Here => {
                return Ok(Some(LinkEnd {
                    point: at,
                    interval,
                }));
            }
            Judged::Ends => {
                return Ok(None);
            }
        }
    }
    Err(Refusal::Ring)
}

// Which point the side f of p is to be connected to, and at which interval.
#[tactic(auto, unfolding(crate::specs::Search::find_inferred_connection))]
pub fn find_inferred_connection(
    closeness: f64,
    sides: &LentSides,
    made: u8,
    p: u8,
    f: TmeshDirection,
) -> Result<Option<LinkEnd>, Refusal>
    ensures is { result ≡ find_inferred_connection closeness (lent_sides sides.now) made p f }
    ensures told { found_told result ≡ search_table closeness (lent_sides sides.now) made p f }
{
    let corner = navigate(sides, made, p, f.clockwise(), f)?;
    let start = navigate(sides, made, corner.at, f, f.anti_clockwise())?;
    seek(
        closeness, sides, made, p, f, start.at, corner.sum, start.sum,
    )
}
