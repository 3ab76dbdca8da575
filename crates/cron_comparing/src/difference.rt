//! The first civil second that one of two unions of schedules matches and the other doesn't. `None`
//! means that there is none.
ghost use Rattle.std.specs.Prelude.{◌≡◌, ◌≤◌, ◌<◌, ℕ, IfSome, false};
ghost use Rattle.cron_comparing.specs.Comparisons.{IsFirstDifference};
ghost use Rattle.cron_comparing.specs.Inner.Common.{IsLeast};
ghost use Rattle.cron_comparing.specs.Inner.Differences.{AreInMonthsOf, NoneBefore, matches_alone, matches_without};

use crate::earlier::earlier;
use crate::lengths::in_months_of;
use cron_time::search::civil_seconds::nearest_match;
use cron_unions::units::{UNITS, inside, outside};
use cron_units::fields::ScheduleFields;
use cron_units::time_unit::layout::bits;
use cron_units::way::Way;

// Returns true if the schedule matches a civil second before `first`, or any if `first` is `None`.
// A schedule without a day of the week matches none: the check saves a search through all months.
fn begins_before(fields: &ScheduleFields, first: Option<u32>) -> bool
    ensures { result ≡ false → NoneBefore fields.now first }
{
    let weekdays = bits(&fields.days_of_week);
    if weekdays == 0 {
        return false;
    }
    let Some(start) = nearest_match(fields, Way::Ahead, 0) else {
        return false;
    };
    match first {
        Some(second) => start < second,
        None => true,
    }
}

// The first civil second that `fields` matches and no schedule of `union` does. All months that
// `fields` matches have `length` days. The part that the union's first schedule doesn't match is
// split by unit: `unit` is outside that schedule's set, and all earlier units are inside. Each part
// is searched with the rest of the union.
fn first_in_months(fields: &ScheduleFields, union: &[ScheduleFields], length: u32) -> Option<u32>
    requires length { (28 ≤ length) × (length ≤ 31) }
    requires unmarked { fields.now.days_of_month.last_day ≡ false }
    requires months { AreInMonthsOf length fields.now }
    ensures { IsLeast (matches_without fields.now union.now) result }
{
    let Some((other, rest)) = union.split_first() else {
        return nearest_match(fields, Way::Ahead, 0);
    };
    let other = in_months_of(other, length);
    let mut shared = *fields;
    let mut first = None;
    for unit in UNITS {
        let part = outside(&shared, &other, unit);
        if begins_before(&part, first) {
            first = earlier(first, first_in_months(&part, rest, length));
        }
        shared = inside(&shared, &other, unit);
    }
    first
}

// The first civil second that `fields` matches and no schedule of `union` does.
fn first_without(fields: &ScheduleFields, union: &[ScheduleFields]) -> Option<u32>
    ensures { IsLeast (matches_without fields.now union.now) result }
{
    let mut first = None;
    for length in 28..32 {
        let days = in_months_of(fields, length);
        first = earlier(first, first_in_months(&days, union, length));
    }
    first
}

// The first civil second that `union` matches and `other` doesn't.
fn first_alone(union: &[ScheduleFields], other: &[ScheduleFields]) -> Option<u32>
    ensures { IsLeast (matches_alone union.now other.now) result }
{
    let mut first = None;
    for fields in union {
        first = earlier(first, first_without(fields, other));
    }
    first
}

/// The number of the first civil second of 1970 to 2100 that exactly one of the unions matches,
/// counted from 1970-01-01 00:00:00. `None` exactly if both match the same civil seconds.
pub fn first_difference(union: &[ScheduleFields], other: &[ScheduleFields]) -> Option<u32>
    ensures { IsFirstDifference union.now other.now result }
{
    earlier(first_alone(union, other), first_alone(other, union))
}
