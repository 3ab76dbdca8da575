//! Finds schedules that another one covers: a union is the same without them.
ghost use Rattle.std.specs.Prelude.{◌≡◌, ◌≤◌, IsTrue, length, true};
ghost use Rattle.cron_unions.specs.Inner.Covers.{Covers, HasAll};
ghost use Rattle.cron_unions.specs.Unions.{any_of};

use cron_bits::wide::Wide;
use cron_units::fields::ScheduleFields;
use cron_units::time_unit::layout::{bits, bits_of_days, three};
use cron_units::time_unit::{DaysOfMonth, Ordinals, UnitTable};

// Returns true if each member of `other` is a member of `set`.
#[inline(always)]
fn has_all<U: UnitTable<u64>>(set: &Ordinals<U, u64>, other: &Ordinals<U, u64>) -> bool
    ensures { IsTrue result → HasAll set.now other.now }
{
    let word = bits(other);
    word & bits(set) == word
}

// Returns true if each year of `other` is a year of `set`.
#[inline(always)]
fn has_all_years<U: UnitTable<Wide>>(set: &Ordinals<U, Wide>, other: &Ordinals<U, Wide>) -> bool
    ensures { IsTrue result → HasAll set.now other.now }
{
    let (first, second, third) = three(set);
    let (other_first, other_second, other_third) = three(other);
    if other_first & first != other_first {
        return false;
    }
    if other_second & second != other_second {
        return false;
    }
    other_third & third == other_third
}

// Returns true if each day of `other`, and its mark of the last day, is one of `days`.
#[inline(always)]
fn has_all_days(days: &DaysOfMonth, other: &DaysOfMonth) -> bool
    ensures days { IsTrue result → HasAll days.now.ordinals other.now.ordinals }
    ensures last_day { IsTrue result → other.now.last_day ≡ true → days.now.last_day ≡ true }
{
    if other.last_day() && !days.last_day() {
        return false;
    }
    let word = bits_of_days(other);
    word & bits_of_days(days) == word
}

/// Returns true if each of the seven sets of `fields` has all members of the same set of `other`.
pub(crate) fn covers(fields: &ScheduleFields, other: &ScheduleFields) -> bool
    ensures { IsTrue result → Covers fields.now other.now }
{
    has_all_days(&fields.days_of_month, &other.days_of_month)
        && has_all(&fields.hours, &other.hours)
        && has_all(&fields.minutes, &other.minutes)
        && has_all(&fields.days_of_week, &other.days_of_week)
        && has_all(&fields.seconds, &other.seconds)
        && has_all(&fields.months, &other.months)
        && has_all_years(&fields.years, &other.years)
}

/// The schedules that a search needs. If one of two covers the other, that is only the covering
/// one; otherwise all.
#[inline(never)]
pub(crate) fn needed(schedules: &[ScheduleFields]) -> &[ScheduleFields]
    ensures same { any_of result.now ≡ any_of schedules.now }
    ensures fewer { length result.now ≤ length schedules.now }
{
    match schedules {
        [one, other] if covers(one, other) => &schedules[..1],
        [one, other] if covers(other, one) => &schedules[1..],
        _ => schedules,
    }
}
