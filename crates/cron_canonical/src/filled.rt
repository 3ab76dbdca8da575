//! Whether sets have members. If a set has none, no text means the sets.

ghost use Rattle.std.specs.Prelude.{◌↔◌, IsTrue};
ghost use Rattle.cron_units.specs.Sets.{AreSets, IsFilled, IsFilledOrMarked};
ghost use Rattle.cron_units.specs.Units as units;

use cron_units::fields::ScheduleFields;
use cron_units::time_unit::{DaysOfMonth, TimeUnitSpec};

fn is_filled<T: TimeUnitSpec>(set: &T) -> bool
    ensures { IsTrue result ↔ IsFilled T.time_unit (T.ordinals set.now) }
{
    set.iter().next().is_some()
}

fn is_filled_or_marked(days: &DaysOfMonth) -> bool
    ensures { IsTrue result ↔ IsFilledOrMarked units.days_of_month days.now }
{
    days.iter().next().is_some() || days.last_day()
}

/// Returns true if each of the sets has a member. The last day of the month counts as a member.
pub fn are_filled(fields: &ScheduleFields) -> bool
    ensures { IsTrue result ↔ AreSets fields.now }
{
    is_filled(&fields.seconds)
        && is_filled(&fields.minutes)
        && is_filled(&fields.hours)
        && is_filled_or_marked(&fields.days_of_month)
        && is_filled(&fields.months)
        && is_filled(&fields.days_of_week)
        && is_filled(&fields.years)
}
