// Closeness of two floats.
ghost use Rattle.std.specs.Prelude.{◌≡◌};
ghost use Rattle.control_point.specs.Small.{millionth, small};

// The closeness of a map that states none.
pub fn closeness() -> f64
    ensures { result ≡ millionth }
{
    1.0 / 1000000.0
}

// Whether the value lies between -closeness and closeness, both included.
pub fn so_small(closeness: f64, value: f64) -> bool
    ensures { result ≡ small closeness value }
{
    -closeness <= value && value <= closeness
}
