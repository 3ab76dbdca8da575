//! The days, months and years of a schedule, in words.

ghost use Rattle.std.specs.Prelude.{◌≡◌, ◌++◌, OnOk};
ghost use Rattle.std.specs.String.{string_bytes};
ghost use Rattle.cron_words.specs.Schedules.{begins_alone, days_text, last_day_text, led_text, months_text, weekdays_text, years_text};

use crate::items::{Item, is_whole, items_of};
use crate::lists::{Naming, push_list};
use cron_units::time_unit::{DaysOfMonth, DaysOfWeek, Months, TimeUnitSpec, Years};
use std::alloc::{AllocError, Global};

fn begins_alone(items: &[Item]) -> bool
    ensures { result ≡ begins_alone items.now }
{
    matches!(items.first(), Some(Item::One(_)))
}

// Appends `one` or `range`, and then the numbers of `set`. `one` leads a list that begins with a
// single number, as `in May`; `range` leads one that begins with a range, as `from May to July`.
fn push_led<T: TimeUnitSpec>(
    alloc: Global,
    text: &mut String,
    one: &str,
    range: &str,
    naming: Naming,
    set: &T,
) -> Result<(), AllocError>
    ensures { OnOk result (string_bytes text.new
        ≡ string_bytes text.old ++ led_text one.now range.now naming (T.ordinals set.now)) }
{
    let items = items_of(alloc, set)?;
    text.push_str(if begins_alone(&items) { one } else { range })?;
    push_list(text, naming, &items)
}

/// Appends the days of the week, or nothing if the set has all of them.
pub(crate) fn push_weekdays(
    alloc: Global,
    text: &mut String,
    days: &DaysOfWeek,
) -> Result<(), AllocError>
    ensures { OnOk result
        (string_bytes text.new ≡ string_bytes text.old ++ weekdays_text days.now) }
{
    if is_whole(days) {
        return Ok(());
    }
    if days.count() == 0 {
        return text.push_str(", on no weekday");
    }
    push_led(alloc, text, ", on ", ", ", Naming::Weekdays, days)
}

fn last_day_text(days: &DaysOfMonth) -> &'static str
    ensures { result.now ≡ last_day_text days.now.last_day }
{
    if days.last_day() {
        " and on the last day of the month"
    } else {
        ""
    }
}

/// Appends the days of the month, or nothing if the set has all of them and not the mark for the
/// last day.
pub(crate) fn push_days(
    alloc: Global,
    text: &mut String,
    days: &DaysOfMonth,
) -> Result<(), AllocError>
    ensures { OnOk result (string_bytes text.new ≡ string_bytes text.old ++ days_text days.now) }
{
    if days.count() == 0 {
        return text.push_str(if days.last_day() {
            ", on the last day of the month"
        } else {
            ", on no day"
        });
    }
    if is_whole(days) && !days.last_day() {
        return Ok(());
    }
    text.push_str(", on the ")?;
    let items = items_of(alloc, days)?;
    push_list(text, Naming::Ordinals, &items)?;
    text.push_str(last_day_text(days))
}

/// Appends the months, or nothing if the set has all of them.
pub(crate) fn push_months(
    alloc: Global,
    text: &mut String,
    months: &Months,
) -> Result<(), AllocError>
    ensures { OnOk result
        (string_bytes text.new ≡ string_bytes text.old ++ months_text months.now) }
{
    if is_whole(months) {
        return Ok(());
    }
    if months.count() == 0 {
        return text.push_str(", in no month");
    }
    push_led(alloc, text, ", in ", ", from ", Naming::Months, months)
}

/// Appends the years, or nothing if the set has all of them.
pub(crate) fn push_years(alloc: Global, text: &mut String, years: &Years) -> Result<(), AllocError>
    ensures { OnOk result
        (string_bytes text.new ≡ string_bytes text.old ++ years_text years.now) }
{
    if is_whole(years) {
        return Ok(());
    }
    if years.count() == 0 {
        return text.push_str(", in no year");
    }
    push_led(alloc, text, ", in ", ", from ", Naming::Numbers, years)
}
