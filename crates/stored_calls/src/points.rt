// The points of a store as stored bytes: how many are made, then 56 bytes for each.
ghost use Rattle.std.specs.Prelude.{◌≡◌, ◌&&◌, ◌<◌};
ghost use Rattle.stored_calls.specs.Points.{has_bits, side_is_right, side_is_at, point_is_right, store_is_right};
ghost use Rattle.big_endian.specs.BigEndian.{number_at};

use big_endian::{after, byte_at, number_at};
use control_point::sides::wide;
use control_point::t_mesh_control_point::{Side, TmeshControlPoint};
use store::store::Store;

const CAPACITY: u8 = 128;

const POINT_BYTES: usize = 56;

pub fn both(first: bool, second: bool) -> bool
    ensures { result ≡ (first && second) }
{
    if first {
        return second;
    }
    false
}

// Whether a float has the bits.
pub fn has_bits(x: f64, bits: u64) -> bool
    ensures { result ≡ has_bits x bits }
{
    float64::to_bits(x) == bits
}

// Whether a side is of a kind, with a number and the bits of its interval or weight.
fn side_is_right(side: Side, kind: u8, number: u8, bits: u64) -> bool
    ensures { result ≡ side_is_right side kind number bits }
{
    match side {
        Side::Link(linked, interval) => {
            both(both(kind == 0, linked == number), has_bits(interval, bits))
        }
        Side::Border(weight) => both(kind == 1, has_bits(weight, bits)),
        Side::Opening => kind == 2,
    }
}

// Whether a side is the one stored at a place.
fn side_is_at(side: Side, bytes: &[u8], at: usize) -> bool
    requires { at < 56 }
    ensures { result ≡ side_is_at side bytes.now at }
{
    let kind = byte_at(bytes, at);
    let number = byte_at(bytes, at + 1);
    side_is_right(side, kind, number, number_at(bytes, at + 2))
}

// Whether the bits of a float stand at a place.
pub fn float_is_at(x: f64, bytes: &[u8], at: usize) -> bool
    ensures { result ≡ has_bits x (number_at 8 bytes.now at) }
{
    has_bits(x, number_at(bytes, at))
}

// Whether a point is the one that the bytes begin with.
fn point_is_right(point: TmeshControlPoint, bytes: &[u8]) -> bool
    ensures { result ≡ point_is_right point bytes.now }
{
    let up = point.up;
    let right = point.right;
    let down = point.down;
    let left = point.left;
    let s = point.s;
    let t = point.t;
    let up_right = both(side_is_at(up, bytes, 0), side_is_at(right, bytes, 10));
    let down_left = both(side_is_at(down, bytes, 20), side_is_at(left, bytes, 30));
    let coordinates = both(float_is_at(s, bytes, 40), float_is_at(t, bytes, 48));
    both(both(up_right, down_left), coordinates)
}

// Whether a store is the one that the bytes begin with.
pub fn store_is_right(store: Store, bytes: &[u8]) -> bool
    ensures { result ≡ store_is_right store bytes.now }
{
    let made = store.made;
    if CAPACITY < made {
        return false;
    }
    let mut right = true;
    for n in 0..wide(made) {
        let point = store.points[n];
        right = both(
            right,
            point_is_right(point, after(bytes, n * POINT_BYTES + 1)),
        );
    }
    both(right, made == byte_at(bytes, 0))
}
