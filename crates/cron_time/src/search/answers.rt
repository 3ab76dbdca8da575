//! The answers of searches.
use cron_moments::readings::Found;

/// What a search found, and its counts.
#[derive(Clone, Copy, Debug, PartialEq, Eq)]
pub struct Search {
    /// The civil second with its readings. `None` if none both matches and has a reading.
    pub found: Option<Found>,
    /// The number of dates that were made and tested.
    pub days: u32,
    /// The number of civil seconds whose readings were looked up.
    pub conversions: u64,
}

/// The time of day that a search found, and how many look-ups of a member it took.
#[derive(Clone, Copy, Debug, PartialEq, Eq)]
pub struct TimeFound {
    /// Hour, minute and second. `None` if no time of the sets lies that way.
    pub time: Option<(u32, u32, u32)>,
    /// The number of look-ups of a member, 7 at most.
    pub questions: u8,
}

/// How many civil seconds were found one after the other, and the counts of their searches
/// together.
#[derive(Clone, Copy, Debug, PartialEq, Eq)]
pub struct Survey {
    /// The number of civil seconds that were found.
    pub seconds: u32,
    /// The number of dates that were made and tested.
    pub days: u64,
    /// The number of civil seconds whose readings were looked up.
    pub conversions: u64,
}
