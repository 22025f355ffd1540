// Numbers in stored bytes, the most significant byte first. A byte past the end counts as 0, so that every place can be read, and is not written.
#![tactic(auto)]

ghost use Rattle.std.specs.Prelude.{◌≡◌, ◌^◌, ◌≤◌, ◌<◌, drop, set};
ghost use Rattle.big_endian.specs.BigEndian.{byte_at, number_at, float_at};
ghost use Rattle.big_endian.specs.Written.{written, bytes_of, bytes_of_float};

// The byte at a place.
pub fn byte_at(bytes: &[u8], at: usize) -> u8
    ensures { result ≡ byte_at bytes.now at }
{
    bytes.get(at).copied().unwrap_or(0)
}

// The number in the two bytes from a place on.
pub fn pair_at(bytes: &[u8], at: usize) -> usize
    ensures value { result ≡ number_at 2 bytes.now at }
    ensures bound { result < 65536 }
{
    number_of_width(bytes, at, 2) as usize
}

// The number in so many bytes from a place on.
fn number_of_width(bytes: &[u8], at: usize, width: usize) -> u64
    requires { width ≤ 8 }
    ensures value { result ≡ number_at width bytes.now at }
    ensures bound { result < 256 ^ width }
{
    let rest = after(bytes, at);
    let mut number = 0;
    for i in 0..width {
        number = number * 256 + u64::from(byte_at(rest, i));
    }
    number
}

// The number in the eight bytes from a place on. Where all eight are there, no byte is tested for, so that the compiler makes one load of them.
pub fn number_at(bytes: &[u8], at: usize) -> u64
    ensures { result ≡ number_at 8 bytes.now at }
{
    match after(bytes, at).first_chunk() {
        Some(eight) => u64::from_be_bytes(*eight),
        None => number_of_width(bytes, at, 8),
    }
}

// The length in the four bytes from a place on.
pub fn length_at(bytes: &[u8], at: usize) -> usize
    ensures value { result ≡ number_at 4 bytes.now at }
    ensures bound { result < 256 ^ 4 }
{
    number_of_width(bytes, at, 4) as usize
}

// The float whose bits the eight bytes from a place on are.
pub fn float_at(bytes: &[u8], at: usize) -> f64
    ensures { result ≡ float_at bytes.now at }
{
    float64::from_bits(number_at(bytes, at))
}

// What stands after the first so many bytes: nothing, where there are no more.
pub fn after(bytes: &[u8], count: usize) -> &[u8]
    ensures { result.now ≡ drop count bytes.now }
{
    &bytes[count.min(bytes.len())..]
}

// Writes bytes from a place on, as far as the buffer reaches. Where it has room for all, the compiler makes one store of a number's.
fn put_bytes(buffer: &mut [u8], at: usize, bytes: &[u8])
    ensures { buffer.new ≡ written buffer.old at bytes.now }
{
    if at < buffer.len() {
        let room = buffer.len() - at;
        if bytes.len() <= room {
            buffer[at..at + bytes.len()].copy_from_slice(bytes);
        } else {
            buffer[at..].copy_from_slice(&bytes[..room]);
        }
    }
}

// Writes a byte at a place.
#[tactic(auto, unfolding(crate::specs::Written::written))]
pub fn put_byte(buffer: &mut [u8], at: usize, byte: u8)
    ensures { buffer.new ≡ set buffer.old at byte }
{
    put_bytes(buffer, at, &[byte])
}

// Writes a number into the eight bytes from a place on.
pub fn put_number(buffer: &mut [u8], at: usize, number: u64)
    ensures { buffer.new ≡ written buffer.old at (bytes_of 8 number) }
{
    put_bytes(buffer, at, &number.to_be_bytes())
}

// Writes a length into the four bytes from a place on: the last four of eight.
pub fn put_length(buffer: &mut [u8], at: usize, size: usize)
    ensures { buffer.new ≡ written buffer.old at (bytes_of 4 size) }
{
    put_bytes(buffer, at, &(size as u64).to_be_bytes()[4..])
}

// Writes a float's bits into the eight bytes from a place on.
pub fn put_float(buffer: &mut [u8], at: usize, value: f64)
    ensures { buffer.new ≡ written buffer.old at (bytes_of_float value) }
{
    put_number(buffer, at, float64::to_bits(value))
}
