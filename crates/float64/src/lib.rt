// f64 from and to its bits, at every pattern and every value, and whether it lies from 0 to 1. The laws of f64 that other crates cite stand in specs/ and proofs/.
#![tactic(auto)]

ghost use Rattle.std.specs.Prelude.{◌≡◌};
ghost use Rattle.std.specs.Float.{binary64};
ghost use Rattle.std.specs.Float.Ieee.{of_bits, to_bits};
ghost use Rattle.float64.specs.Unit.{in_unit};

use std::num::{f64_from_bits_with_nan, f64_to_bits_with_nan};

// The float of a pattern; every NaN pattern gives the NaN.
pub fn from_bits(bits: u64) -> f64
    ensures { result ≡ of_bits binary64 bits }
{
    f64_from_bits_with_nan(bits)
}

// The pattern of a float; every NaN is written 7ff8000000000000.
pub fn to_bits(value: f64) -> u64
    ensures { result ≡ to_bits binary64 value }
{
    f64_to_bits_with_nan(value)
}

// Whether it lies from 0 to 1, both ends included; no NaN does.
// `contains` of a range was tried here: it asks `partial_cmp` at each end and compiles to branches, where this is two comparisons.
#[tactic(auto, unfolding(crate::specs::Unit::in_unit))]
pub fn in_unit(value: f64) -> bool
    ensures { result ≡ in_unit value }
{
    0.0 <= value && value <= 1.0
}
