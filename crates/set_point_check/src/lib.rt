// The checks of a set-point: that its place lies on the map, and that its value has weight.
#![tactic(auto)]

ghost use Rattle.std.specs.Prelude.{◌≡◌};
ghost use Rattle.surface.specs.Evaluation.{evaluation_told};
ghost use Rattle.surface.specs.SetPoint.{on_map, weighty, where_weighty, where_weighty_table, weighed};

use control_point::refusal::Refusal;
use float64::in_unit;
use surface::evaluation::Evaluation;

// Whether (s, t) lies on the map: both from 0 to 1.
pub fn on_map(s: f64, t: f64) -> bool
    ensures { result ≡ on_map s t }
{
    in_unit(s) && in_unit(t)
}

// Whether the weight is positive and finite.
fn is_weighty(value: Evaluation) -> bool
    ensures { result ≡ weighty value }
{
    0.0 < value.weight && value.weight < 1.0 / 0.0
}

// The value of an evaluation, refused unless its weight is positive and finite.
pub fn where_weighty(value: Evaluation) -> Result<Evaluation, Refusal>
    ensures is { result ≡ where_weighty value }
    ensures told { evaluation_told result ≡ where_weighty_table value }
{
    if is_weighty(value) {
        Ok(value)
    } else {
        Err(Refusal::NoWeight)
    }
}

// The same of an evaluation's answer.
pub fn weighed(answer: Result<Evaluation, Refusal>) -> Result<Evaluation, Refusal>
    ensures { result ≡ weighed answer }
{
    match answer {
        Ok(value) => where_weighty(value),
        Err(refusal) => Err(refusal),
    }
}
