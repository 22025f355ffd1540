// Replays the stored cases of the basis function, and says how many came out right. data/cases holds 56 bytes for each case: u, the five
// knots and the result, as specs/Case.antt says.
#![tactic(auto)]

ghost use Rattle.std.specs.Prelude.{◌≡◌};
ghost use Rattle.basis_replay.specs.Case.{is_right, knots_of};

use std::io;

const CASE_BYTES: usize = 56;

// The case's knots.
fn knots_of(case: &[u8]) -> [f64; 5]
    ensures { result ≡ knots_of case.now }
{
    [
        big_endian::float_at(case, 8),
        big_endian::float_at(case, 16),
        big_endian::float_at(case, 24),
        big_endian::float_at(case, 32),
        big_endian::float_at(case, 40),
    ]
}

// Whether the basis function has the bits that the case says.
fn is_right(case: &[u8]) -> bool
    ensures { result ≡ is_right case.now }
{
    let value = basis::basis_function(big_endian::float_at(case, 0), knots_of(case));
    float64::to_bits(value) == big_endian::number_at(case, 48)
}

fn main(rt: HostRuntime) -> io::Result<()> {
    replay::run_sized(&rt, &mut [0u8; CASE_BYTES], is_right)
}
