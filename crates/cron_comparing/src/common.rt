//! The first civil second that two unions of schedules both match. `None` means that there is none.
ghost use Rattle.std.specs.Prelude.{◌≡◌, false};
ghost use Rattle.cron_comparing.specs.Comparisons.{IsFirstCommon};
ghost use Rattle.cron_comparing.specs.Inner.Common.{IsLeast, both_match, both_match_any, matches_with};

use crate::earlier::earlier;
use crate::lengths::in_months_of;
use crate::products::common_product;
use cron_time::search::civil_seconds::nearest_match;
use cron_units::fields::ScheduleFields;
use cron_units::way::Way;

// The first civil second that both schedules match, where either may mark the last day. It searches
// the months of each length apart, since the last day has a fixed number there.
fn first_by_lengths(fields: &ScheduleFields, other: &ScheduleFields) -> Option<u32>
    ensures { IsLeast (both_match fields.now other.now) result }
{
    let mut first = None;
    for length in 28..32 {
        let days = in_months_of(fields, length);
        let product = common_product(&days, &in_months_of(other, length));
        first = earlier(first, nearest_match(&product, Way::Ahead, 0));
    }
    first
}

// The first civil second that both schedules match.
fn first_of_two(fields: &ScheduleFields, other: &ScheduleFields) -> Option<u32>
    ensures { IsLeast (both_match fields.now other.now) result }
{
    if fields.days_of_month.last_day() || other.days_of_month.last_day() {
        return first_by_lengths(fields, other);
    }
    nearest_match(&common_product(fields, other), Way::Ahead, 0)
}

// The first civil second that `fields` and some schedule of `union` both match.
fn first_with(fields: &ScheduleFields, union: &[ScheduleFields]) -> Option<u32>
    ensures { IsLeast (matches_with fields.now union.now) result }
{
    let mut first = None;
    for other in union {
        first = earlier(first, first_of_two(fields, other));
    }
    first
}

// The first civil second that both unions match.
fn least_common(union: &[ScheduleFields], other: &[ScheduleFields]) -> Option<u32>
    ensures { IsLeast (both_match_any union.now other.now) result }
{
    let mut first = None;
    for fields in union {
        first = earlier(first, first_with(fields, other));
    }
    first
}

/// The number of the first civil second of 1970 to 2100 that both unions match, counted from
/// 1970-01-01 00:00:00. `None` exactly if there is no such civil second.
pub fn first_common(union: &[ScheduleFields], other: &[ScheduleFields]) -> Option<u32>
    ensures { IsFirstCommon union.now other.now result }
{
    least_common(union, other)
}
