// A load: a map file of drawn edits, which anyone makes alike from a seed and a count of edits.
#![tactic(auto)]

ghost use Rattle.std.specs.Prelude.{◌≡◌, ◌≤◌, length};
ghost use Rattle.big_endian.specs.Written.{written};
ghost use Rattle.draw.specs.Draw.{later_draw};
ghost use Rattle.load.specs.Load.{load_head, drawn_edit, drawn_edits, load_answer, load_buffer, load_table, asked_answer, asked_buffer, asked_table};
ghost use Rattle.map_format.specs.Format.{edits_at, most_edits, edit_of, bytes_of_edits};
ghost use Rattle.map_writing.specs.Answer.{write_told};

use big_endian::{number_at, pair_at};
use control_point::refusal::Refusal;
use control_point::t_mesh_direction::TmeshDirection;
use draw::{drawn_float, next_draw};
use map_format::format::{EDIT_BYTES, EDITS_AT, EditTarget, Head, MOST_EDITS};
use map_writing::{file_length, put_edit, put_front};
use t_mesh::t_mesh::Position;

const THE_VERSION: u8 = 1;

const POINTS: u64 = 128;

const DIRECTIONS: u64 = 4;

// What is asked for: a seed, and a count of edits behind it.
pub const ASKED_BYTES: usize = 10;

const COUNT_AT: usize = 8;

// An edit, and the last of the six draws that made it.
#[derive(Clone, Copy)]
struct Drawn {
    pub target: EditTarget,
    pub position: Position,
    pub state: u64,
}

// The version, the border weight, and the corners (0, 0, 0), (1, 0, 0), (1, 1, 1) and (0, 1, 1).
fn load_head() -> Head
    ensures { result ≡ load_head }
{
    let bottom_left = Position {
        x: 0.0,
        y: 0.0,
        z: 0.0,
    };
    let bottom_right = Position {
        x: 1.0,
        y: 0.0,
        z: 0.0,
    };
    let top_right = Position {
        x: 1.0,
        y: 1.0,
        z: 1.0,
    };
    let top_left = Position {
        x: 0.0,
        y: 1.0,
        z: 1.0,
    };
    Head {
        version: THE_VERSION,
        border: 1.0,
        bottom_left,
        bottom_right,
        top_right,
        top_left,
    }
}

// The edit of the six draws after a state.
fn drawn_edit(state: u64) -> Drawn
    ensures edit { edit_of result.target result.position ≡ drawn_edit state }
    ensures state { result.state ≡ later_draw 6 state }
{
    let first = next_draw(state);
    let second = next_draw(first);
    let third = next_draw(second);
    let fourth = next_draw(third);
    let fifth = next_draw(fourth);
    let sixth = next_draw(fifth);
    let point = (first % POINTS) as u8;
    let direction = TmeshDirection::numbered((second % DIRECTIONS) as u8);
    let ratio = drawn_float(third);
    let x = drawn_float(fourth);
    let y = drawn_float(fifth);
    let z = drawn_float(sixth);
    Drawn {
        target: EditTarget {
            point,
            direction,
            ratio,
        },
        position: Position { x, y, z },
        state: sixth,
    }
}

// Writes so many drawn edits behind the front.
fn put_edits(out: &mut [u8], seed: u64, count: usize)
    requires { count ≤ most_edits }
    ensures { out.new ≡ written out.old edits_at (bytes_of_edits (drawn_edits count seed)) }
{
    let mut state = seed;
    for n in 0..count {
        let drawn = drawn_edit(state);
        put_edit(out, EDITS_AT + n * EDIT_BYTES, drawn.target, drawn.position);
        state = drawn.state;
    }
}

// Writes the load of a seed with so many edits at the front of a buffer.
pub fn write_load(seed: u64, edits: u64, out: &mut [u8]) -> Result<usize, Refusal>
    ensures is { result ≡ load_answer seed edits (length out.old) }
    ensures buffer { out.new ≡ load_buffer seed edits out.old }
    ensures told { write_told result ≡ load_table seed edits (length out.old) }
{
    if seed == 0 {
        return Err(Refusal::Seed);
    }
    let count = edits as usize;
    if MOST_EDITS < count {
        return Err(Refusal::TooMany);
    }
    let bytes = file_length(count);
    if out.len() < bytes {
        return Err(Refusal::Short);
    }
    put_front(out, count, load_head());
    put_edits(out, seed, count);
    Ok(bytes)
}

// Writes the load that an input asks for.
pub fn write_asked(input: &[u8], out: &mut [u8]) -> Result<usize, Refusal>
    ensures is { result ≡ asked_answer input.now (length out.old) }
    ensures buffer { out.new ≡ asked_buffer input.now out.old }
    ensures told { write_told result ≡ asked_table input.now (length out.old) }
{
    if input.len() != ASKED_BYTES {
        return Err(Refusal::Length);
    }
    write_load(number_at(input, 0), pair_at(input, COUNT_AT) as u64, out)
}
