// A position and its weight as 32 bytes, which the C call for a set-point writes.
#![tactic(auto)]

ghost use Rattle.std.specs.Prelude.{◌≡◌};
ghost use Rattle.big_endian.specs.Written.{written};
ghost use Rattle.value_bytes.specs.Value.{bytes_of_value};

use big_endian::put_float;
use surface::evaluation::Evaluation;

// At the start of a buffer, as far as that reaches.
pub fn write_value(out: &mut [u8], value: Evaluation)
    ensures { out.new ≡ written out.old 0 (bytes_of_value value) }
{
    put_float(out, 0, value.x);
    put_float(out, 8, value.y);
    put_float(out, 16, value.z);
    put_float(out, 24, value.weight);
}
