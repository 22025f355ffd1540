// A file that begins with the count of the bytes that follow: its length, by its head and its items, and what a check of it finds.
#![tactic(auto)]

ghost use Rattle.std.specs.Prelude.{◌≡◌, ◌<◌};
ghost use Rattle.counted_file.specs.Counted.{counted_right};

use big_endian::length_at;

pub const COUNT_BYTES: usize = 4;

// Where the version stands, in one byte.
pub const VERSION_AT: usize = 4;

// Whether the count at the start is that of the bytes that follow, and the file is a head, that count included, and up to so many whole items.
pub fn counted_right(bytes: &[u8], head: usize, item: usize, most: usize) -> bool
    requires { 0 < item }
    ensures { result ≡ counted_right head item most bytes.now }
{
    let length = bytes.len();
    if length < head {
        return false;
    }
    if COUNT_BYTES + length_at(bytes, 0) != length {
        return false;
    }
    let items = length - head;
    if items % item != 0 {
        return false;
    }
    items / item <= most
}
