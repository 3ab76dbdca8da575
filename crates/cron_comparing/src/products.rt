//! The intersection of two schedules that don't mark the last day, as one schedule.
ghost use Rattle.std.specs.Prelude.{◌≡◌, ◌&&◌, false};
ghost use Rattle.jiff_core.specs.declared.civil.datetime.DateTime.{DateTime};
ghost use Rattle.cron_time.specs.Matches.{matches};

use cron_unions::members::{common_days, common_members, common_years};
use cron_units::fields::ScheduleFields;

/// The schedule that matches exactly the civil seconds that `fields` and `other` both match.
pub(crate) fn common_product(fields: &ScheduleFields, other: &ScheduleFields) -> ScheduleFields
    requires unmarked { fields.now.days_of_month.last_day ≡ false }
    requires other_unmarked { other.now.days_of_month.last_day ≡ false }
    ensures { (dt : DateTime)
        → matches result dt ≡ (matches fields.now dt && matches other.now dt) }
{
    ScheduleFields {
        seconds: common_members(&fields.seconds, &other.seconds),
        minutes: common_members(&fields.minutes, &other.minutes),
        hours: common_members(&fields.hours, &other.hours),
        days_of_month: common_days(&fields.days_of_month, &other.days_of_month),
        months: common_members(&fields.months, &other.months),
        days_of_week: common_members(&fields.days_of_week, &other.days_of_week),
        years: common_years(&fields.years, &other.years),
    }
}
