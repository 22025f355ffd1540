// Words and numbers put into a lent buffer at a place, as far as the buffer reaches. Each answers the place after its text.
// Buffer and place are no struct: a struct that holds a lent buffer is no plainer, since each function of it would promise besides that it still holds the same buffer.
ghost use Rattle.std.specs.Prelude.{◌<◌, ◌++◌};
ghost use Rattle.report_text.specs.Put.{Put, Fits};
ghost use Rattle.report_text.specs.Text.{printed_below, space, number_text, bits_text, refused_text};

use big_endian::put_byte;

pub fn put_text(out: &mut [u8], at: usize, text: &[u8]) -> usize
    requires { Fits at text.now }
    ensures { Put out.old at text.now out.new result }
{
    for i in 0..text.len() {
        put_byte(out, at + i, text[i]);
    }
    at + text.len()
}

// A space, and a word behind it.
fn put_word(out: &mut [u8], at: usize, word: &[u8]) -> usize
    requires { Fits at (space ++ word.now) }
    ensures { Put out.old at (space ++ word.now) out.new result }
{
    let end = put_text(out, at, b" ");
    put_text(out, end, word)
}

// A space, and a number in decimal.
pub fn put_number(out: &mut [u8], at: usize, n: u64) -> usize
    requires few { n < printed_below }
    requires fits { Fits at (number_text n) }
    ensures { Put out.old at (number_text n) out.new result }
{
    let mut digits = [0u8; 20];
    let count = io::decimal(n, &mut digits);
    put_word(out, at, &digits[..count])
}

// A space, and the bits of a float in hexadecimal.
pub fn put_bits(out: &mut [u8], at: usize, value: f64) -> usize
    requires { Fits at (bits_text value) }
    ensures { Put out.old at (bits_text value) out.new result }
{
    let mut digits = [0u8; 16];
    let count = io::hex(float64::to_bits(value), 16, &mut digits);
    put_word(out, at, &digits[..count])
}

// A word, and a number behind it.
pub fn put_labelled(out: &mut [u8], at: usize, word: &[u8], n: u64) -> usize
    requires few { n < printed_below }
    requires fits { Fits at (word.now ++ number_text n) }
    ensures { Put out.old at (word.now ++ number_text n) out.new result }
{
    let end = put_text(out, at, word);
    put_number(out, end, n)
}

// ` refused N`
pub fn put_refused(out: &mut [u8], at: usize, number: u8) -> usize
    requires { Fits at (refused_text number) }
    ensures { Put out.old at (refused_text number) out.new result }
{
    put_labelled(out, at, b" refused", u64::from(number))
}
