//! The schedules that each form of days means, as `L-3`, `15W` or `6#3`. Where the day depends on
//! the length of the month, there are schedules for months of each length.

ghost use Rattle.std.specs.Prelude.{◌≡◌, ◌<◌, ◌≤◌, ◌+◌, ◌++◌, [], ℕ, length, nat_le, true};
ghost use Rattle.cron_units.specs.Units.{with_mark};
ghost use Rattle.cron_quartz.specs.Days.{by_length, from_to, near_day, on_days, on_friday, on_monday, schedules_of, workdays};
ghost use Rattle.cron_quartz.specs.FormViews.{days_view};
ghost use Rattle.cron_quartz.specs.Inner.Forms.{AreDays, IsCounted, IsLength, counted};

use crate::days::Days;
use crate::lengths::in_length;
use crate::schedules::Expression;
use cron_units::fields::ScheduleFields;
use cron_units::time_unit::{DaysOfMonth, DaysOfWeek, TimeUnitField, empty, only};

const MONDAY: u32 = 2;

const FRIDAY: u32 = 6;

/// A form whose days depend on the length of the month.
#[derive(Clone, Copy)]
pub(crate) enum Counted {
    BeforeLast(u32),
    NearestWorkday(u32),
    LastWorkday(u32),
    LastWeekday(u32),
}

// `day`, or 31 if `day` is greater.
fn clipped(day: u32) -> u32
    ensures fits { result ≤ 31 }
    ensures same { (d : ℕ) → d ≤ 31 → nat_le d result ≡ nat_le d day }
{
    if day <= 31 { day } else { 31 }
}

// The days of the month from `first` to `last`, or to 31 if `last` is greater.
fn from_to(first: u32, last: u32) -> DaysOfMonth
    requires { 1 ≤ first }
    ensures { result ≡ from_to first last }
{
    let mut days: DaysOfMonth = empty();
    days.insert_range(first, clipped(last));
    days
}

fn workdays() -> DaysOfWeek
    ensures { result ≡ workdays }
{
    let mut week: DaysOfWeek = empty();
    week.insert_range(MONDAY, FRIDAY);
    week
}

// Adds to `list` the schedule `fields` with the days `days` and `week`.
fn add(list: &mut Expression, days: DaysOfMonth, week: DaysOfWeek, fields: &ScheduleFields)
    requires { length list.old < 12 }
    ensures schedules { list.new ≡ list.old ++ on_days days week fields.now }
    ensures len { length list.new ≡ length list.old + 1 }
{
    list.add(ScheduleFields {
        days_of_month: days,
        days_of_week: week,
        ..*fields
    });
}

// Adds the Monday that is the workday nearest to `day`. It is the next day, if `day` is a Sunday.
// For day 1 it may also be day 3, if day 1 is a Saturday. The last day of the month, `end`, has
// none.
fn add_monday(list: &mut Expression, day: u32, end: u32, fields: &ScheduleFields)
    requires room { length list.old < 12 }
    requires day { day ≤ end }
    requires end { IsLength end }
    ensures schedules { list.new ≡ list.old ++ on_monday day end fields.now }
    ensures len { length list.new ≤ length list.old + 1 }
{
    if day == end {
        return;
    }
    let last = if day == 1 { 3 } else { day + 1 };
    add(list, from_to(day + 1, last), only(MONDAY), fields);
}

// Adds the Friday that is the workday nearest to `day`. It is the day before, if `day` is a
// Saturday. For the last day, `end`, it may also be two days before, if `end` is a Sunday. Day 1
// has none.
fn add_friday(list: &mut Expression, day: u32, end: u32, fields: &ScheduleFields)
    requires room { length list.old < 12 }
    requires low { 1 ≤ day }
    requires end { IsLength end }
    ensures schedules { list.new ≡ list.old ++ on_friday day end fields.now }
    ensures len { length list.new ≤ length list.old + 1 }
{
    if day == 1 {
        return;
    }
    let first = if day == end { day - 2 } else { day - 1 };
    add(list, from_to(first, day - 1), only(FRIDAY), fields);
}

// Adds the schedules of the workday nearest to `day` in months of `end` days, if they have that
// day.
fn add_near(list: &mut Expression, day: u32, end: u32, fields: &ScheduleFields)
    requires room { length list.old + 3 ≤ 12 }
    requires end { IsLength end }
    ensures schedules { list.new ≡ list.old ++ near_day day end fields.now }
    ensures len { length list.new ≤ length list.old + 3 }
{
    if day == 0 || day > end {
        return;
    }
    add(list, from_to(day, day), workdays(), fields);
    add_monday(list, day, end, fields);
    add_friday(list, day, end, fields);
}

impl Counted {
    // Adds the form's schedules for months of `end` days.
    fn add_to(self, list: &mut Expression, end: u32, fields: &ScheduleFields)
        requires form { IsCounted self }
        requires room { length list.old + 3 ≤ 12 }
        requires end { IsLength end }
        ensures schedules { list.new ≡ list.old ++ counted self end fields.now }
        ensures len { length list.new ≤ length list.old + 3 }
    {
        match self {
            Counted::BeforeLast(before) if before < end => {
                let day = end - before;
                add(list, from_to(day, day), fields.days_of_week, fields);
            }
            Counted::BeforeLast(_) => {}
            Counted::NearestWorkday(day) => add_near(list, day, end, fields),
            Counted::LastWorkday(before) => {
                add_near(list, end.saturating_sub(before), end, fields);
            }
            Counted::LastWeekday(weekday) => {
                add(list, from_to(end - 6, end), only(weekday), fields);
            }
        }
    }

    // The form's schedules for months of each length.
    fn schedules(self, fields: &ScheduleFields) -> Expression
        requires { IsCounted self }
        ensures { result ≡ by_length (counted self) fields.now }
    {
        let mut list = Expression::none(fields);
        self.add_to(&mut list, 28, &in_length(28, fields));
        self.add_to(&mut list, 29, &in_length(29, fields));
        self.add_to(&mut list, 30, &in_length(30, fields));
        self.add_to(&mut list, 31, &in_length(31, fields));
        list
    }
}

// The expression of one schedule: `fields` with the days `days` and `week`.
fn one(days: DaysOfMonth, week: DaysOfWeek, fields: &ScheduleFields) -> Expression
    ensures { result ≡ on_days days week fields.now }
{
    let mut list = Expression::none(fields);
    add(&mut list, days, week, fields);
    list
}

// The set of only the last day of the month.
fn last_day() -> DaysOfMonth
    ensures { result ≡ with_mark [] true }
{
    let mut days: DaysOfMonth = empty();
    days.mark();
    days
}

/// The schedules of the form `days`. `fields` is the schedule of the other fields, with all days.
pub fn schedules_of(days: &Days, fields: &ScheduleFields) -> Expression
    requires { AreDays days.now }
    ensures { result ≡ schedules_of (days_view days.now) fields.now }
{
    match days {
        Days::Dates(dates) => one(*dates, fields.days_of_week, fields),
        Days::BeforeLast(0) => one(last_day(), fields.days_of_week, fields),
        Days::BeforeLast(before) => Counted::BeforeLast(*before).schedules(fields),
        Days::NearestWorkday(day) => Counted::NearestWorkday(*day).schedules(fields),
        Days::LastWorkday(before) => Counted::LastWorkday(*before).schedules(fields),
        Days::Weekdays(week) => one(fields.days_of_month, *week, fields),
        Days::LastWeekday(weekday) => Counted::LastWeekday(*weekday).schedules(fields),
        Days::NthWeekday(weekday, place) => {
            let last = 7 * *place;
            one(from_to(last - 6, last), only(*weekday), fields)
        }
    }
}
