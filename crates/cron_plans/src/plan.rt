//! What a plan asks for.

use cron_days::rule::Rule;
use cron_units::fields::ScheduleFields;
use cron_units::way::Way;

/// Which matches of schedules are left out, and where others are moved. First the matches of
/// `without` go. Of the rest, those on days that a rule doesn't allow go too, or are moved.
#[derive(Clone, Copy)]
pub struct Plan<'a> {
    /// What any of these schedules matches is left out.
    pub without: &'a [ScheduleFields],
    /// The rules of days. A day is allowed if each of them allows it, so without a rule all are.
    pub days: &'a [Rule],
    /// Where a match on another day goes: to the nearest allowed day after or before it, at the same
    /// time of day. `None` leaves it out.
    pub moves: Option<Way>,
}
