// The cubic B-spline basis function of a T-mesh, operation by operation as in the source's t_mesh/basis.rs, with its tables of terms written out:
// every quotient and sum rounds once, in source order. A NaN, in u or in the knots, is compared as f64 does and goes through the formula.
// In the sums a to e are the source's a[0] to a[4].
#![tactic(auto)]

ghost use Rattle.std.specs.Prelude.{false, true, ◌≡◌};
ghost use Rattle.basis.specs.Binary64.{binary64_arithmetic, knots};
ghost use Rattle.basis.specs.Formula.{falling, first_segment, formula, last_segment, rising, sum_of_terms};

// The sum of the second segment's terms, for u between the second knot and the third: it starts at 0.0, so that three terms of -0.0 give 0.0.
#[tactic(auto, unfolding(crate::specs::Formula::sum_of_terms))]
fn rising_sum(u: f64, a: [f64; 5]) -> f64
    ensures { result ≡ sum_of_terms binary64_arithmetic u (knots a) true rising }
{
    let [a, b, c, d, e] = a;
    0.0 + (u - a) * (u - a) * (c - u) / ((d - a) * (c - a))
        + (u - a) * (u - b) * (d - u) / ((d - a) * (d - b))
        + (u - b) * (u - b) * (e - u) / ((e - b) * (d - b))
}

// The sum of the third segment's terms, for u between the third knot and the fourth.
#[tactic(auto, unfolding(crate::specs::Formula::sum_of_terms))]
fn falling_sum(u: f64, a: [f64; 5]) -> f64
    ensures { result ≡ sum_of_terms binary64_arithmetic u (knots a) false falling }
{
    let [a, b, c, d, e] = a;
    0.0 + (u - a) * (d - u) * (d - u) / ((d - a) * (d - b))
        + (u - b) * (e - u) * (d - u) / ((e - b) * (d - b))
        + (u - c) * (e - u) * (e - u) / ((e - b) * (e - c))
}

// The first segment: u lies between the first knot and the second.
fn first_segment(u: f64, a: [f64; 5]) -> f64
    ensures { result ≡ first_segment binary64_arithmetic u (knots a) }
{
    let distance = u - a[0];
    distance * distance * distance / ((a[3] - a[0]) * (a[2] - a[0]) * (a[1] - a[0]))
}

// The last segment: u lies between the fourth knot and the fifth.
fn last_segment(u: f64, a: [f64; 5]) -> f64
    ensures { result ≡ last_segment binary64_arithmetic u (knots a) }
{
    let distance = a[4] - u;
    distance * distance * distance / ((a[4] - a[1]) * (a[4] - a[2]) * (a[4] - a[3]))
}

// The cubic B-spline basis function of five knots at u: 0.0 outside the first and the last, and a formula for each segment inside.
pub fn basis_function(u: f64, a: [f64; 5]) -> f64
    ensures { result ≡ formula binary64_arithmetic u (knots a) }
{
    if u < a[0] || a[4] <= u {
        return 0.0;
    }
    if u < a[1] {
        first_segment(u, a)
    } else if u < a[2] {
        let scalar = 1.0 / (a[2] - a[1]);
        scalar * rising_sum(u, a)
    } else if u < a[3] {
        let scalar = 1.0 / (a[3] - a[2]);
        scalar * falling_sum(u, a)
    } else {
        last_segment(u, a)
    }
}
