//! A schedule as a set of civil seconds, for the crates that compute when a set fires.

use crate::schedule::Schedule;
use cron_seconds::civil_seconds::CivilSeconds;
use cron_seconds::schedule::ScheduleCursor;
use cron_units::fields::ScheduleFields;
use cron_units::way::Way;

impl CivilSeconds for Schedule {
    ghost use Rattle.cron_time.specs.Timeline.{seconds_of};
    ghost use Rattle.cron_seconds.specs.Schedules.{Knows};

    ghost has = { λ schedule. seconds_of schedule.sets };

    type Cursor = ScheduleCursor;

    ghost knows = { λ schedule cursor. Knows schedule.sets cursor };

    #[inline(always)]
    fn nearest(&self, way: Way, from: i64) -> Option<u32> {
        self.fields().nearest(way, from)
    }

    #[inline(always)]
    fn begin() -> ScheduleCursor {
        ScheduleFields::begin()
    }

    #[inline(always)]
    fn past(&self, way: Way, second: u32, cursor: &mut ScheduleCursor) -> Option<u32> {
        self.fields().past(way, second, cursor)
    }

    #[inline(always)]
    fn is_clear(&self, first: u32, end: u32) -> bool {
        self.fields().is_clear(first, end)
    }
}
