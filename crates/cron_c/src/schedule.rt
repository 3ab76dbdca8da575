//! A schedule as plain numbers. The caller may copy it.

ghost use Rattle.std.specs.Prelude.{◌≡◌};
ghost use Rattle.cron_c.specs.Structs.{IsStructOf, sets_of};

use cron_seconds::civil_seconds::CivilSeconds;
use cron_seconds::schedule::ScheduleCursor;
use cron_units::fields::ScheduleFields;
use cron_units::time_unit::layout::{
    bits, bits_of_days, days_from_bits, from_bits, from_three, three,
};
use cron_units::way::Way;

/// A schedule as seven sets. Bit i of a word is the least ordinal of the unit plus i, so bit 0 is
/// second 0, day of the month 1 or Sunday. The name of each word of years has the year of its bit
/// 0. The last day of each month is a day too if `last_day` isn't 0. A struct that is read may have
/// any bits: a bit past the greatest ordinal means nothing. A struct that is written has no such
/// bits, and its `last_day` is 0 or 1. The content of `reserved` means nothing, and it is written
/// as 0.
#[repr(C)]
#[derive(Clone, Copy)]
pub struct CronSchedule {
    pub seconds: u64,
    pub minutes: u64,
    pub hours: u64,
    pub days_of_month: u64,
    pub last_day: u64,
    pub months: u64,
    pub days_of_week: u64,
    pub years_from_1970: u64,
    pub years_from_2034: u64,
    pub years_from_2098: u64,
    pub reserved: [u64; 6],
}

/// The sets in `schedule`.
pub fn fields_of(schedule: &CronSchedule) -> ScheduleFields
    ensures { result ≡ sets_of schedule.now }
{
    ScheduleFields {
        seconds: from_bits(schedule.seconds),
        minutes: from_bits(schedule.minutes),
        hours: from_bits(schedule.hours),
        days_of_month: days_from_bits(schedule.days_of_month, schedule.last_day != 0),
        months: from_bits(schedule.months),
        days_of_week: from_bits(schedule.days_of_week),
        years: from_three(
            schedule.years_from_1970,
            schedule.years_from_2034,
            schedule.years_from_2098,
        ),
    }
}

/// The struct that holds the sets `fields`.
pub fn schedule_of(fields: &ScheduleFields) -> CronSchedule
    ensures sets { sets_of result ≡ fields.now }
    ensures exact { IsStructOf fields.now result }
{
    let (years_from_1970, years_from_2034, years_from_2098) = three(&fields.years);
    CronSchedule {
        seconds: bits(&fields.seconds),
        minutes: bits(&fields.minutes),
        hours: bits(&fields.hours),
        days_of_month: bits_of_days(&fields.days_of_month),
        last_day: u64::from(fields.days_of_month.last_day()),
        months: bits(&fields.months),
        days_of_week: bits(&fields.days_of_week),
        years_from_1970,
        years_from_2034,
        years_from_2098,
        reserved: [0; 6],
    }
}

// Each search makes the sets anew, so a call over one schedule passes the sets of `fields_of`
// instead.
impl CivilSeconds for CronSchedule {
    ghost use Rattle.cron_seconds.specs.Schedules.{Knows};
    ghost use Rattle.cron_c.specs.Structs.{seconds_of_struct, sets_of};

    ghost has = { seconds_of_struct };

    type Cursor = ScheduleCursor;

    ghost knows = { λ schedule cursor. Knows (sets_of schedule) cursor };

    fn nearest(&self, way: Way, from: i64) -> Option<u32> {
        fields_of(self).nearest(way, from)
    }

    fn begin() -> ScheduleCursor {
        ScheduleFields::begin()
    }

    fn past(&self, way: Way, second: u32, cursor: &mut ScheduleCursor) -> Option<u32> {
        fields_of(self).past(way, second, cursor)
    }

    fn is_clear(&self, first: u32, end: u32) -> bool {
        fields_of(self).is_clear(first, end)
    }
}
