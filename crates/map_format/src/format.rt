// What the bytes of a map file say, and which files are refused. The places and sizes are those of docs/FORMATS.md.
ghost use Rattle.std.specs.Prelude.{◌≡◌, ◌≤◌};
ghost use Rattle.counted_file.specs.Counted.{file_told};
ghost use Rattle.map_format.specs.Format.{edits_at, most_edits, version_of, is_version, file_withdraws, position_at, edit_at, target_of, headings_right, checked_file, file_table};

use big_endian::{after, byte_at, float_at};
use control_point::refusal::Refusal;
use control_point::t_mesh_direction::TmeshDirection;
use counted_file::{VERSION_AT, counted_right};
use t_mesh::t_mesh::Position;

const FIRST_VERSION: u8 = 1;

const LAST_VERSION: u8 = 2;

// From this version on torn edits are withdrawn.
const WITHDRAWING_VERSION: u8 = 2;

pub const BORDER_AT: usize = 5;

pub const CORNERS_AT: usize = 13;

pub const POSITION_BYTES: usize = 24;

pub const EDITS_AT: usize = 109;

pub const EDIT_BYTES: usize = 34;

pub const MOST_EDITS: usize = 1000;

// The bytes of the longest file.
pub const MOST_FILE_BYTES: usize = EDITS_AT + MOST_EDITS * EDIT_BYTES;

// Within an edit.
pub const DIRECTION_IN: usize = 1;

pub const RATIO_IN: usize = 2;

pub const POSITION_IN: usize = 10;

const DIRECTIONS: u8 = 4;

// Where an edit inserts: towards a direction of a point, at a ratio of the link there. The edit's position is wanted only where it leaves a point.
#[derive(Clone, Copy)]
pub struct EditTarget {
    pub point: u8,
    pub direction: TmeshDirection,
    pub ratio: f64,
}

// What stands in a file between the count and the edits. The corners go anticlockwise.
#[derive(Clone, Copy)]
pub struct Head {
    pub version: u8,
    pub border: f64,
    pub bottom_left: Position,
    pub bottom_right: Position,
    pub top_right: Position,
    pub top_left: Position,
}

fn version_of(file: &[u8]) -> u8
    ensures { result ≡ version_of file.now }
{
    byte_at(file, VERSION_AT)
}

fn is_version(version: u8) -> bool
    ensures { result ≡ is_version version }
{
    (FIRST_VERSION..=LAST_VERSION).contains(&version)
}

// Whether the torn edits of a file are withdrawn. Of a byte that is no version it says what it says of 1 below 2, and of 2 above: `validate` stands before it.
pub fn file_withdraws(file: &[u8]) -> bool
    ensures { result ≡ file_withdraws file.now }
{
    WITHDRAWING_VERSION <= version_of(file)
}

// The position at a place. Past the end zeros are read: `validate` stands before it.
pub fn position_at(bytes: &[u8], at: usize) -> Position
    ensures { result ≡ position_at bytes.now at }
{
    let place = after(bytes, at);
    let x = float_at(place, 0);
    let y = float_at(place, 8);
    let z = float_at(place, 16);
    Position { x, y, z }
}

// The target of the edit at a place. Past the end zeros are read, and a direction above 3 as Left: `validate` stands before it.
pub fn target_at(bytes: &[u8], at: usize) -> EditTarget
    ensures { result ≡ target_of (edit_at bytes.now at) }
{
    let place = after(bytes, at);
    let point = byte_at(place, 0);
    let direction = TmeshDirection::numbered(byte_at(place, DIRECTION_IN));
    let ratio = float_at(place, RATIO_IN);
    EditTarget {
        point,
        direction,
        ratio,
    }
}

// The position of the edit at a place. Past the end zeros are read: `validate` stands before it.
pub fn edit_position(file: &[u8], at: usize) -> Position
    ensures { result ≡ (edit_at file.now at).position }
{
    let place = after(file, at);
    position_at(place, POSITION_IN)
}

// Whether the direction of each of so many edits is one.
fn headings_right(bytes: &[u8], count: usize) -> bool
    requires { count ≤ most_edits }
    ensures { result ≡ headings_right count bytes.now edits_at }
{
    (0..count).all(|n| byte_at(bytes, EDITS_AT + n * EDIT_BYTES + DIRECTION_IN) < DIRECTIONS)
}

// A file's count of edits, or why it is refused.
pub fn validate(file: &[u8]) -> Result<usize, Refusal>
    ensures is { result ≡ checked_file file.now }
    ensures told { file_told result ≡ file_table file.now }
{
    if !counted_right(file, EDITS_AT, EDIT_BYTES, MOST_EDITS) {
        return Err(Refusal::Length);
    }
    if !is_version(version_of(file)) {
        return Err(Refusal::Version);
    }
    let count = (file.len() - EDITS_AT) / EDIT_BYTES;
    if headings_right(file, count) {
        Ok(count)
    } else {
        Err(Refusal::Heading)
    }
}
