// The draws of a load: a state of 64 bits, mixed by shifts, and the floats from 0 to 1 that are taken from it.
#![tactic(auto)]

ghost use Rattle.std.specs.Prelude.{◌≡◌};
ghost use Rattle.draw.specs.Draw.{next_draw, drawn_float};

// How many counts of parts of 1 there are, from none to all.
const PART_COUNTS: u64 = 1025;

const PARTS: f64 = 1024.0;

// The draw after a state.
#[tactic(auto, unfolding(crate::specs::Draw::next_draw))]
pub fn next_draw(state: u64) -> u64
    ensures { result ≡ next_draw state }
{
    let first = state ^ (state << 13);
    let second = first ^ (first >> 7);
    second ^ (second << 17)
}

// The float of a draw.
#[tactic(auto, unfolding(crate::specs::Draw::in_parts))]
pub fn drawn_float(draw: u64) -> f64
    ensures { result ≡ drawn_float draw }
{
    ((draw % PART_COUNTS) as f64) / PARTS
}
