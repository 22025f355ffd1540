// Writing a map file: its head and its edits, each at its place, and what a call that writes a file answers. What has no room in the buffer is not written.
#![tactic(auto)]

ghost use Rattle.std.specs.Prelude.{◌≡◌, ◌+◌, ◌≤◌};
ghost use Rattle.big_endian.specs.Written.{written};
ghost use Rattle.map_format.specs.Format.{position_bytes, edit_bytes, most_edits, bytes_of_position, edit_of, bytes_of_edit, file_length, front_of};
ghost use Rattle.map_writing.specs.Answer.{write_told, bytes_written, length_or_number};

use big_endian::{put_byte, put_float, put_length};
use control_point::refusal::Refusal;
use counted_file::{COUNT_BYTES, VERSION_AT};
use map_format::format::{
    BORDER_AT, CORNERS_AT, DIRECTION_IN, EDIT_BYTES, EDITS_AT, EditTarget, Head, POSITION_BYTES,
    POSITION_IN, RATIO_IN,
};
use t_mesh::t_mesh::Position;

// How many bytes a call wrote that writes a file into a lent buffer, and answers how many the file has: none, where it is refused.
pub fn bytes_written(answer: Result<usize, Refusal>) -> usize
    ensures { result ≡ bytes_written answer }
{
    answer.unwrap_or(0)
}

// What a C call returns of such an answer: the length, or the refusal's number.
pub fn length_or_number(answer: Result<usize, Refusal>) -> u64
    ensures { result ≡ length_or_number (write_told answer) }
{
    match answer {
        Ok(bytes) => bytes as u64,
        Err(refusal) => u64::from(refusal.number()),
    }
}

fn put_position(buffer: &mut [u8], at: usize, position: Position)
    requires { at + position_bytes ≤ file_length most_edits }
    ensures { buffer.new ≡ written buffer.old at (bytes_of_position position) }
{
    put_float(buffer, at, position.x);
    put_float(buffer, at + 8, position.y);
    put_float(buffer, at + 16, position.z);
}

// Writes the edit of a target and a position at a place.
pub fn put_edit(buffer: &mut [u8], at: usize, target: EditTarget, position: Position)
    requires { at + edit_bytes ≤ file_length most_edits }
    ensures { buffer.new ≡ written buffer.old at (bytes_of_edit (edit_of target position)) }
{
    put_byte(buffer, at, target.point);
    put_byte(buffer, at + DIRECTION_IN, target.direction.number());
    put_float(buffer, at + RATIO_IN, target.ratio);
    put_position(buffer, at + POSITION_IN, position);
}

// The bytes of a file of so many edits.
pub fn file_length(edits: usize) -> usize
    requires { edits ≤ most_edits }
    ensures { result ≡ file_length edits }
{
    EDITS_AT + edits * EDIT_BYTES
}

// Writes what stands before so many edits: the count of the bytes that follow it, and the head.
pub fn put_front(buffer: &mut [u8], edits: usize, head: Head)
    requires { edits ≤ most_edits }
    ensures { buffer.new ≡ written buffer.old 0 (front_of edits head) }
{
    put_length(buffer, 0, file_length(edits) - COUNT_BYTES);
    put_byte(buffer, VERSION_AT, head.version);
    put_float(buffer, BORDER_AT, head.border);
    put_position(buffer, CORNERS_AT, head.bottom_left);
    put_position(buffer, CORNERS_AT + POSITION_BYTES, head.bottom_right);
    put_position(buffer, CORNERS_AT + 2 * POSITION_BYTES, head.top_right);
    put_position(buffer, CORNERS_AT + 3 * POSITION_BYTES, head.top_left);
}
