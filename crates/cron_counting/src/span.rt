//! Spans of times of day.
ghost use Rattle.std.specs.Prelude.{◌≡◌, ◌+◌, ◌*◌, ◌<◌, ◌≤◌, ℕ, IsTrue, true, false};
ghost use Rattle.cron_counting.specs.Inner.Times.{is_within};

use cron_moments::civil::SECONDS_PER_DAY;

/// The seconds of an hour.
pub(crate) const HOUR: u32 = 3_600;

/// Times of day in seconds after midnight, from `first` up to but without `end`.
#[derive(Clone, Copy)]
pub(crate) struct Span {
    pub(crate) first: u32,
    pub(crate) end: u32,
}

impl Span {
    /// Whether the span holds a time of day.
    pub(crate) fn has(self, time: u32) -> bool
        ensures { result ≡ is_within self time }
    {
        self.first <= time && time < self.end
    }

    /// Returns true only if the span holds all times of `hour`.
    pub(crate) fn covers_hour(self, hour: u32) -> bool
        requires { hour < 24 }
        ensures { IsTrue result
            → (self.first ≤ hour * 3600) × (hour * 3600 + 3600 ≤ self.end) }
    {
        let start = hour * HOUR;
        self.first <= start && start + HOUR <= self.end
    }

    /// Returns true only if the span holds all times of a day.
    pub(crate) fn covers_day(self) -> bool
        ensures { IsTrue result → (t : ℕ) → t < 86_400 → is_within self t ≡ true }
    {
        self.first == 0 && SECONDS_PER_DAY <= self.end
    }

    /// Returns true only if the span holds no time of `hour`.
    pub(crate) fn misses_hour(self, hour: u32) -> bool
        requires { hour < 24 }
        ensures { IsTrue result
            → (u : ℕ) → u < 3600 → is_within self (hour * 3600 + u) ≡ false }
    {
        let start = hour * HOUR;
        self.end <= start || start + HOUR <= self.first
    }
}
