//! What a schedule matches and another one doesn't, as several schedules.
ghost use Rattle.std.specs.Prelude.{◌≡◌, ◌⊎◌, ℕ, true, MatchOption};
ghost use Rattle.cron_time.specs.Timeline.{seconds_of};
ghost use Rattle.cron_unions.specs.Unions.{any_of};
ghost use Rattle.cron_days.specs.Sets.{except};

use cron_unions::units::{Unit, inside, outside};
use cron_units::fields::ScheduleFields;

/// Schedules that together match what `fields` does and `other` doesn't, for a `Union` or `AnyOf`.
/// Each has one unit outside the set of `other`, and those before it inside. So no search walks
/// through what is left out. `None` if one of the two marks the last day of the month: then
/// [`Except`] gives the same.
///
/// [`Except`]: crate::except::Except
pub fn rest_of(fields: &ScheduleFields, other: &ScheduleFields) -> Option<[ScheduleFields; 7]>
    ensures { MatchOption result
        ((fields.now.days_of_month.last_day ≡ true) ⊎ (other.now.days_of_month.last_day ≡ true))
        (λ parts. (c : ℕ)
        → any_of parts c ≡ except (seconds_of fields.now) (seconds_of other.now) c) }
{
    if fields.days_of_month.last_day() {
        return None;
    }
    if other.days_of_month.last_day() {
        return None;
    }
    let in_years = inside(fields, other, Unit::Year);
    let in_months = inside(&in_years, other, Unit::Month);
    let on_days = inside(&in_months, other, Unit::Day);
    let on_weekdays = inside(&on_days, other, Unit::Weekday);
    let in_hours = inside(&on_weekdays, other, Unit::Hour);
    let in_minutes = inside(&in_hours, other, Unit::Minute);
    Some([
        outside(fields, other, Unit::Year),
        outside(&in_years, other, Unit::Month),
        outside(&in_months, other, Unit::Day),
        outside(&on_days, other, Unit::Weekday),
        outside(&on_weekdays, other, Unit::Hour),
        outside(&in_hours, other, Unit::Minute),
        outside(&in_minutes, other, Unit::Second),
    ])
}
