// A window of a season: the minutes at which a map is to be used. Minutes of the season and of the day are numbers of 32 bits.
#![tactic(auto)]

ghost use Rattle.std.specs.Prelude.{◌≡◌};
ghost use Rattle.season_window.specs.Decision.{common, first_minute};
ghost use Rattle.season_window.specs.Window.{holds_at, can_hold, hold_together, past_day};

const DAY_MINUTES: u32 = 1440;

// It opens at the minute `opening` of the season and is closed from `closing` on; of each day it has the minutes from `first` to before `last`.
#[derive(Clone, Copy)]
pub struct Window {
    pub opening: u32,
    pub closing: u32,
    pub map: u8,
    pub first: u32,
    pub last: u32,
}

// The first minute from `opening` on that is one of the day's part, which is not empty. It may have more than 32 bits.
fn first_minute(opening: u32, first: u32, last: u32) -> u64
    ensures { result ≡ first_minute opening first last }
{
    let from = u64::from(opening);
    let day = opening % DAY_MINUTES;
    if day < first {
        return from + u64::from(first - day);
    }
    if day < last {
        return from;
    }
    from + u64::from(DAY_MINUTES - day) + u64::from(first)
}

impl Window {
    // Whether its first or its last minute of the day is past the day.
    pub fn past_day(self) -> bool
        ensures { result ≡ past_day self }
    {
        DAY_MINUTES < self.first || DAY_MINUTES < self.last
    }

    // Whether it holds at a minute.
    #[tactic(auto, unfolding(crate::specs::Window::holds_at))]
    pub fn holds(self, minute: u32) -> bool
        ensures { result ≡ holds_at self minute }
    {
        let day = minute % DAY_MINUTES;
        (self.opening..self.closing).contains(&minute) && (self.first..self.last).contains(&day)
    }

    // Whether it can hold in some minute.
    pub fn can_hold(self) -> bool
        ensures { result ≡ can_hold self }
    {
        let last = self.last.min(DAY_MINUTES);
        self.first < last && first_minute(self.opening, self.first, last) < u64::from(self.closing)
    }

    // The part of it in which another holds too.
    #[tactic(auto, unfolding(crate::specs::Decision::common))]
    fn common(self, other: Window) -> Window
        ensures { result ≡ common self other }
    {
        Window {
            opening: self.opening.max(other.opening),
            closing: self.closing.min(other.closing),
            map: self.map,
            first: self.first.max(other.first),
            last: self.last.min(other.last),
        }
    }

    // Whether both hold in some common minute.
    pub fn holds_with(self, other: Window) -> bool
        ensures { result ≡ hold_together self other }
    {
        self.common(other).can_hold()
    }
}
