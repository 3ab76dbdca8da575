//! The units of a civil datetime, and the parts of a schedule inside and outside another one's set
//! of a unit.
ghost use Rattle.std.specs.Prelude.{◌≡◌, ◌&&◌, not, false};
ghost use Rattle.jiff_core.specs.declared.civil.datetime.DateTime.{DateTime};
ghost use Rattle.cron_time.specs.Matches.{matches};
ghost use Rattle.cron_unions.specs.Units.{has_unit};

use crate::members::{common_days, common_members, common_years, own_days, own_members, own_years};
use cron_units::fields::ScheduleFields;

/// A unit of time. A schedule has a set of each.
#[derive(Clone, Copy)]
pub enum Unit {
    Year,
    Month,
    Day,
    Weekday,
    Hour,
    Minute,
    Second,
}

/// All units.
pub const UNITS: [Unit; 7] = [
    Unit::Year,
    Unit::Month,
    Unit::Day,
    Unit::Weekday,
    Unit::Hour,
    Unit::Minute,
    Unit::Second,
];

/// The part of `fields` whose `unit` is in the set of `other`.
pub fn inside(fields: &ScheduleFields, other: &ScheduleFields, unit: Unit) -> ScheduleFields
    requires unmarked { fields.now.days_of_month.last_day ≡ false }
    ensures matches { (dt : DateTime)
        → matches result dt ≡ (matches fields.now dt && has_unit other.now dt unit) }
    ensures unmarked { result.days_of_month.last_day ≡ false }
{
    let mut part = *fields;
    match unit {
        Unit::Year => part.years = common_years(&fields.years, &other.years),
        Unit::Month => part.months = common_members(&fields.months, &other.months),
        Unit::Day => part.days_of_month = common_days(&fields.days_of_month, &other.days_of_month),
        Unit::Weekday => {
            part.days_of_week = common_members(&fields.days_of_week, &other.days_of_week);
        }
        Unit::Hour => part.hours = common_members(&fields.hours, &other.hours),
        Unit::Minute => part.minutes = common_members(&fields.minutes, &other.minutes),
        Unit::Second => part.seconds = common_members(&fields.seconds, &other.seconds),
    }
    part
}

/// The part of `fields` whose `unit` isn't in the set of `other`.
pub fn outside(fields: &ScheduleFields, other: &ScheduleFields, unit: Unit) -> ScheduleFields
    requires unmarked { fields.now.days_of_month.last_day ≡ false }
    ensures matches { (dt : DateTime)
        → matches result dt ≡ (matches fields.now dt && not (has_unit other.now dt unit)) }
    ensures unmarked { result.days_of_month.last_day ≡ false }
{
    let mut part = *fields;
    match unit {
        Unit::Year => part.years = own_years(&fields.years, &other.years),
        Unit::Month => part.months = own_members(&fields.months, &other.months),
        Unit::Day => part.days_of_month = own_days(&fields.days_of_month, &other.days_of_month),
        Unit::Weekday => {
            part.days_of_week = own_members(&fields.days_of_week, &other.days_of_week);
        }
        Unit::Hour => part.hours = own_members(&fields.hours, &other.hours),
        Unit::Minute => part.minutes = own_members(&fields.minutes, &other.minutes),
        Unit::Second => part.seconds = own_members(&fields.seconds, &other.seconds),
    }
    part
}
