// The four directions of a mesh, clockwise.
ghost use Rattle.std.specs.Prelude.{◌≡◌};
ghost use Rattle.control_point.specs.Direction.{clockwise_of, anti_clockwise_of, flip_of, direction_number, direction_numbered};

#[derive(Clone, Copy, Debug, PartialEq, Eq)]
pub enum TmeshDirection {
    Up,
    Right,
    Down,
    Left,
}

impl TmeshDirection {
    // A quarter of a turn clockwise.
    pub fn clockwise(self) -> TmeshDirection
        ensures { result ≡ clockwise_of self }
    {
        match self {
            TmeshDirection::Up => TmeshDirection::Right,
            TmeshDirection::Right => TmeshDirection::Down,
            TmeshDirection::Down => TmeshDirection::Left,
            TmeshDirection::Left => TmeshDirection::Up,
        }
    }

    // A quarter of a turn anticlockwise.
    pub fn anti_clockwise(self) -> TmeshDirection
        ensures { result ≡ anti_clockwise_of self }
    {
        match self {
            TmeshDirection::Up => TmeshDirection::Left,
            TmeshDirection::Right => TmeshDirection::Up,
            TmeshDirection::Down => TmeshDirection::Right,
            TmeshDirection::Left => TmeshDirection::Down,
        }
    }

    // The opposite direction.
    pub fn flip(self) -> TmeshDirection
        ensures { result ≡ flip_of self }
    {
        match self {
            TmeshDirection::Up => TmeshDirection::Down,
            TmeshDirection::Right => TmeshDirection::Left,
            TmeshDirection::Down => TmeshDirection::Up,
            TmeshDirection::Left => TmeshDirection::Right,
        }
    }

    pub fn number(self) -> u8
        ensures { result ≡ direction_number self }
    {
        match self {
            TmeshDirection::Up => 0,
            TmeshDirection::Right => 1,
            TmeshDirection::Down => 2,
            TmeshDirection::Left => 3,
        }
    }

    // The direction of a number; beyond 3 there is none, and the last one stands in.
    pub fn numbered(number: u8) -> TmeshDirection
        ensures { result ≡ direction_numbered number }
    {
        if number == 0 {
            return TmeshDirection::Up;
        }
        if number == 1 {
            return TmeshDirection::Right;
        }
        if number == 2 {
            return TmeshDirection::Down;
        }
        TmeshDirection::Left
    }
}
