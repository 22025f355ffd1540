// Why a call is refused, in the order of the answer numbers.
ghost use Rattle.std.specs.Prelude.{◌≡◌};
ghost use Rattle.control_point.specs.Refusal.{refusal_number};
ghost use Rattle.control_point.specs.Told.{number_of};

#[derive(Clone, Copy, Debug, PartialEq, Eq)]
pub enum Refusal {
    Ratio,
    Foreign,
    OpenSide,
    BorderSide,
    Taken,
    Interval,
    Itself,
    Torn,
    Ring,
    Full,
    NoPoint,
    Length,
    Version,
    Heading,
    NoWeight,
    Short,
    Pull,
    Clash,
    Shut,
    OffMap,
    Seed,
    TooMany,
    UnlikeHeads,
    TooLong,
    Closeness,
    Ticks,
    Doubled,
}

impl Refusal {
    // Its answer number.
    pub fn number(self) -> u8
        ensures { result ≡ refusal_number self }
    {
        match self {
            Refusal::Ratio => 1,
            Refusal::Foreign => 2,
            Refusal::OpenSide => 3,
            Refusal::BorderSide => 4,
            Refusal::Taken => 5,
            Refusal::Interval => 6,
            Refusal::Itself => 7,
            Refusal::Torn => 8,
            Refusal::Ring => 9,
            Refusal::Full => 10,
            Refusal::NoPoint => 11,
            Refusal::Length => 12,
            Refusal::Version => 13,
            Refusal::Heading => 14,
            Refusal::NoWeight => 15,
            Refusal::Short => 16,
            Refusal::Pull => 17,
            Refusal::Clash => 18,
            Refusal::Shut => 19,
            Refusal::OffMap => 20,
            Refusal::Seed => 21,
            Refusal::TooMany => 22,
            Refusal::UnlikeHeads => 23,
            Refusal::TooLong => 24,
            Refusal::Closeness => 25,
            Refusal::Ticks => 26,
            Refusal::Doubled => 27,
        }
    }
}

// The answer number of a call, 0 where it is not refused.
pub fn number_of<T>(answer: &Result<T, Refusal>) -> u8
    ensures { result ≡ number_of answer.now }
{
    match answer {
        Ok(_) => 0,
        Err(refusal) => refusal.number(),
    }
}
