//! Forms of days of Quartz, each of which several schedules mean together: the last Friday of the
//! month, the workday nearest to a day, and the last workday.

ghost use Rattle.std.specs.Prelude.{◌≡◌, ◌↔◌, IsTrue, None};
ghost use Rattle.std.specs.List.{list_any};
ghost use Rattle.cron_quartz.specs.Inner.Forms.{AreDays};
ghost use Rattle.cron_quartz.specs.FormViews.{days_view};
ghost use Rattle.cron_units.specs.Units.{contains};
ghost use Rattle.cron_words.specs.Shapes.{IsShape, base, days_of, have_shape, if_shaped, months_of_any, shape_from, workday_of, years_of_any};

use crate::items::only;
use cron_quartz::{Days, schedules_of};
use cron_units::fields::ScheduleFields;
use cron_units::time_unit::{Months, Ordinal, TimeUnitField, TimeUnitSpec, Years, empty, whole};

/// A form of days. Days of the week are numbered from 1 for Sunday.
#[derive(Clone, Copy)]
pub(crate) enum Shape {
    /// The last such day of the week in the month.
    LastWeekday(Ordinal),
    /// The workday nearest to this day of the month.
    NearestWorkday(Ordinal),
    /// The last workday of the month.
    LastWorkday,
}

// Returns true if one of the schedules has the month.
fn any_has_month(schedules: &[ScheduleFields], month: Ordinal) -> bool
    ensures { result ≡ list_any (λ s. contains s.months month) schedules.now }
{
    for fields in schedules {
        if fields.months.includes(month) {
            return true;
        }
    }
    false
}

fn months_of_any(schedules: &[ScheduleFields]) -> Months
    ensures { result ≡ months_of_any schedules.now }
{
    let mut kept: Months = empty();
    for month in 1..13 {
        if any_has_month(schedules, month) {
            kept.insert(month);
        }
    }
    kept
}

fn any_has_year(schedules: &[ScheduleFields], year: Ordinal) -> bool
    ensures { result ≡ list_any (λ s. contains s.years year) schedules.now }
{
    for fields in schedules {
        if fields.years.includes(year) {
            return true;
        }
    }
    false
}

fn years_of_any(schedules: &[ScheduleFields]) -> Years
    ensures { result ≡ years_of_any schedules.now }
{
    let mut kept: Years = empty();
    for year in 1970..2101 {
        if any_has_year(schedules, year) {
            kept.insert(year);
        }
    }
    kept
}

// The schedule of the fields other than days: the times of `first`, and the months and years of any
// of the schedules.
pub(crate) fn base(first: &ScheduleFields, schedules: &[ScheduleFields]) -> ScheduleFields
    ensures { result ≡ base first.now schedules.now }
{
    ScheduleFields {
        days_of_month: whole(),
        months: months_of_any(schedules),
        days_of_week: whole(),
        years: years_of_any(schedules),
        ..*first
    }
}

// Returns true if the schedules have the same sets, in the same order.
#[tactic(auto, using(crate::proofs::ShapeLemmas::other_sets, crate::proofs::ShapeLemmas::sets_on))]
fn have_same_sets(first: &[ScheduleFields], second: &[ScheduleFields]) -> bool
    ensures { IsTrue result ↔ (first.now ≡ second.now) }
{
    let Some((one, rest)) = first.split_first() else {
        return second.is_empty();
    };
    let Some((other, others)) = second.split_first() else {
        return false;
    };
    if one != other {
        return false;
    }
    have_same_sets(rest, others)
}

impl Shape {
    fn days(self) -> Days
        requires { IsShape self }
        ensures days { days_view result ≡ days_of self }
        ensures within { AreDays result }
    {
        match self {
            Shape::LastWeekday(weekday) => Days::LastWeekday(weekday),
            Shape::NearestWorkday(day) => Days::NearestWorkday(day),
            Shape::LastWorkday => Days::LastWorkday(0),
        }
    }
}

// Returns true if the schedules, of which the first is `first`, are those of the form.
fn have_shape(shape: Shape, first: &ScheduleFields, schedules: &[ScheduleFields]) -> bool
    requires { IsShape shape }
    ensures { result ≡ have_shape shape first.now schedules.now }
{
    let expression = schedules_of(&shape.days(), &base(first, schedules));
    have_same_sets(expression.as_slice(), schedules)
}

// The form, if the schedules are its own.
fn if_shaped(shape: Shape, first: &ScheduleFields, schedules: &[ScheduleFields]) -> Option<Shape>
    requires { IsShape shape }
    ensures { result ≡ if_shaped (have_shape shape first.now schedules.now) shape None }
{
    if have_shape(shape, first, schedules) {
        Some(shape)
    } else {
        None
    }
}

// The workday nearest to a day of the month, if the schedules are those of it.
#[tactic(auto, using(crate::proofs::ShapeLemmas::day_within, crate::proofs::ShapeLemmas::no_days, crate::proofs::ShapeLemmas::some_days))]
fn workday_of(first: &ScheduleFields, schedules: &[ScheduleFields]) -> Option<Shape>
    ensures { result ≡ workday_of first.now schedules.now }
{
    first.days_of_month.state_facts();
    let Some(day) = first.days_of_month.iter().next() else {
        return None;
    };
    if_shaped(Shape::NearestWorkday(day), first, schedules)
}

/// The form of days that schedules mean together, of which the first is `first`.
#[tactic(auto, using(crate::proofs::ShapeLemmas::weekday_within, crate::proofs::ShapeLemmas::one_weekday, crate::proofs::ShapeLemmas::other_weekdays))]
pub(crate) fn shape_from(first: &ScheduleFields, schedules: &[ScheduleFields]) -> Option<Shape>
    ensures { result ≡ shape_from first.now schedules.now }
{
    first.days_of_week.state_facts();
    if let Some(weekday) = only(&first.days_of_week) {
        return if_shaped(Shape::LastWeekday(weekday), first, schedules);
    }
    match if_shaped(Shape::LastWorkday, first, schedules) {
        Some(shape) => Some(shape),
        None => workday_of(first, schedules),
    }
}
