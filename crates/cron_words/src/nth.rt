//! The one day of the week that comes in one week of the month, as the third Friday.

ghost use Rattle.std.specs.Prelude.{◌≡◌, ◌==◌, ◌&&◌, ◌+◌, ◌%◌, ◌++◌, false, true, nat_lt, if◌then◌else◌, MatchOption, OnOk};
ghost use Rattle.std.specs.String.{string_bytes};
ghost use Rattle.cron_words.specs.Progressions.{first};
ghost use Rattle.cron_words.specs.Schedules.{dates_text, is_nth_weekday, is_week, nth_weekday_text, only, place, place_text};

use crate::days::{push_days, push_weekdays};
use crate::items::only;
use crate::lists::{Naming, push_name};
use crate::progressions::{Progression, progression_of};
use cron_units::fields::ScheduleFields;
use cron_units::time_unit::{DaysOfMonth, Ordinal};
use std::alloc::{AllocError, Global};

/// A day of the week, and its place among those of a month, from 1 to 5.
#[derive(Clone, Copy)]
struct NthWeekday {
    place: Ordinal,
    weekday: Ordinal,
}

// The last day of the week of a month that begins with the day `first`.
fn end_of_week(first: Ordinal) -> Ordinal
    ensures { result ≡ (if nat_lt first 29 then first + 6 else 31) }
{
    if first < 29 { first + 6 } else { 31 }
}

// Returns true if the days are a week of the month: 1 to 7, 8 to 14 and so on, or 29 to 31.
fn is_week(days: Progression) -> bool
    ensures { result ≡ (days.step == 1
        && (days.first % 7 == 1 && days.last == (if nat_lt days.first 29 then days.first + 6 else 31))) }
{
    days.step == 1 && days.first % 7 == 1 && days.last == end_of_week(days.first)
}

// Which week of the month the days are, if they are one.
fn place_of(days: &DaysOfMonth) -> Option<Ordinal>
    ensures { MatchOption result
        (is_week days.now.ordinals ≡ false)
        (λ n. (is_week days.now.ordinals ≡ true) × (n ≡ place (first days.now.ordinals))) }
{
    let numbers = progression_of(days)?;
    if is_week(numbers) {
        Some(numbers.first / 7 + 1)
    } else {
        None
    }
}

fn nth_weekday(fields: &ScheduleFields) -> Option<NthWeekday>
    ensures { MatchOption result
        (is_nth_weekday fields.now ≡ false)
        (λ n. (is_nth_weekday fields.now ≡ true)
        × (n.place ≡ place (first fields.now.days_of_month.ordinals))
        × (n.weekday ≡ only fields.now.days_of_week)) }
{
    let weekday = only(&fields.days_of_week)?;
    let place = place_of(&fields.days_of_month)?;
    if fields.days_of_month.last_day() {
        return None;
    }
    Some(NthWeekday { place, weekday })
}

fn place_text(place: Ordinal) -> &'static str
    ensures { result.now ≡ place_text place }
{
    match place {
        1 => "first",
        2 => "second",
        3 => "third",
        4 => "fourth",
        _ => "fifth",
    }
}

fn push_nth_weekday(text: &mut String, nth: NthWeekday) -> Result<(), AllocError>
    ensures { OnOk result
        (string_bytes text.new ≡ string_bytes text.old ++ nth_weekday_text nth.place nth.weekday) }
{
    write!(text, ", on the {} ", place_text(nth.place))?;
    push_name(text, Naming::Weekdays, nth.weekday)?;
    text.push_str(" of the month")
}

/// Appends the days of the week and of the month.
#[tactic(auto, using(crate::proofs::PushLemmas::dates_on))]
pub(crate) fn push_dates(
    alloc: Global,
    text: &mut String,
    fields: &ScheduleFields,
) -> Result<(), AllocError>
    ensures { OnOk result
        (string_bytes text.new ≡ string_bytes text.old ++ dates_text fields.now) }
{
    if let Some(nth) = nth_weekday(fields) {
        return push_nth_weekday(text, nth);
    }
    push_weekdays(alloc, text, &fields.days_of_week)?;
    push_days(alloc, text, &fields.days_of_month)
}
