//! The civil seconds that match a schedule.
ghost use Rattle.std.specs.Prelude.{◌≡◌, ℕ, ◌≤◌, ◌<◌, IfSome, IsTrue, false};
ghost use Rattle.cron_time.specs.Matches.{is_match};

use crate::civil_seconds::CivilSeconds;
use cron_moments::calendar::KnownMonth;
use cron_moments::civil::SECONDS_PER_DAY;
use cron_time::search::civil_seconds::{match_past, nearest_match};
use cron_time::search::minute::Minute;
use cron_time::search::month_days::MonthDays;
use cron_units::fields::ScheduleFields;
use cron_units::way::Way;

/// What a search of a schedule has learned: the minute of its last match, and the days of a month.
#[derive(Clone, Copy)]
pub struct ScheduleCursor {
    minute: Minute,
    days: MonthDays,
}

// Returns true only if the hours of the schedule show that no civil second at or after `first` and
// before `last` matches. False if the two aren't on the same day.
fn has_no_hour(fields: &ScheduleFields, first: u32, last: u32) -> bool
    ensures { IsTrue result → (k : ℕ) → first ≤ k → k < last → is_match fields.now k ≡ false }
{
    if first / SECONDS_PER_DAY != last / SECONDS_PER_DAY {
        return false;
    }
    match fields.nearest_hour(Way::Ahead, first % SECONDS_PER_DAY / 3600) {
        Some(hour) => last % SECONDS_PER_DAY / 3600 < hour,
        None => true,
    }
}

impl CivilSeconds for ScheduleFields {
    ghost use Rattle.cron_time.specs.Timeline.{seconds_of};
    ghost use Rattle.cron_seconds.specs.Schedules.{Knows};

    ghost has = { seconds_of };

    type Cursor = ScheduleCursor;

    ghost knows = { Knows };

    #[inline(always)]
    fn nearest(&self, way: Way, from: i64) -> Option<u32> {
        nearest_match(self, way, from)
    }

    #[inline(always)]
    fn begin() -> ScheduleCursor {
        ScheduleCursor {
            minute: Minute::epoch(),
            days: MonthDays::unknown(KnownMonth::january_1970()),
        }
    }

    #[inline(always)]
    fn past(&self, way: Way, second: u32, cursor: &mut ScheduleCursor) -> Option<u32> {
        match_past(self, way, second, &mut cursor.minute, &mut cursor.days)
    }

    #[inline(always)]
    fn is_clear(&self, first: u32, end: u32) -> bool {
        has_no_hour(self, first, end)
    }
}
