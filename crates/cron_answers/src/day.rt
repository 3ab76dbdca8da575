//! Days and months as people name them, and times of day. Days are numbered from 1970-01-01.

ghost use Rattle.std.specs.Prelude.{◌≡◌, ◌<◌, ◌≤◌, ◌+◌, IfSome, MatchOption, Some, ℕ, length};
ghost use Rattle.cron_moments.specs.Civil.{days_in_range};
ghost use Rattle.cron_answers.specs.Days.{AreDays, IsDay, IsMinuteOfDay, IsNextOn, IsSecondOfDay, IsTimeOfDay, NamesWeekday};
ghost use Rattle.cron_answers.specs.Instants.{TellsSecond};
ghost use Rattle.cron_answers.specs.Periods.{NamesMonth};

use crate::period::{Period, month_of, two_at};
use cron_moments::calendar::{KnownMonth, length_of, weekday_of};

/// Days from one on and before another.
#[derive(Clone, Copy)]
pub(crate) struct Days {
    pub(crate) first: u32,
    pub(crate) end: u32,
}

// The number of the day of the week that a word names, from 1 for Sunday.
fn weekday_named(word: &str) -> Option<u32>
    ensures names { TellsSecond (NamesWeekday word.now) result }
    ensures bound { IfSome result (λ n. (1 ≤ n) × (n ≤ 7)) }
{
    match word {
        "sunday" => Some(1),
        "monday" => Some(2),
        "tuesday" => Some(3),
        "wednesday" => Some(4),
        "thursday" => Some(5),
        "friday" => Some(6),
        "saturday" => Some(7),
        _ => None,
    }
}

// The first day after `today` that falls on this day of the week.
fn next_on(weekday: u32, today: u32) -> u32
    requires weekday { (1 ≤ weekday) × (weekday ≤ 7) }
    requires today { today < days_in_range }
    ensures next { IsNextOn weekday today result }
    ensures bound { result ≤ today + 7 }
{
    today + 1 + (weekday + 6 - weekday_of(today)) % 7
}

// The day that a word names, by the present one. `None` if it names none, or one before 1970.
fn day_named(word: &str, today: u32) -> Option<u32>
    requires { today < days_in_range }
    ensures names { TellsSecond (IsDay word.now today) result }
    ensures bound { IfSome result (λ day. day ≤ today + 7) }
{
    match word {
        "today" => Some(today),
        "tomorrow" => Some(today + 1),
        "yesterday" => {
            if today < 1 {
                return None;
            }
            Some(today - 1)
        }
        _ => match weekday_named(word) {
            Some(weekday) => Some(next_on(weekday, today)),
            None => None,
        },
    }
}

// The month that a text names, such as `2024-02`. `None` if it names none.
fn month_named(text: &str) -> Option<Period>
    ensures { MatchOption result
        ((p : Period) → NamesMonth text.now p → ⊥) (NamesMonth text.now) }
{
    if text.len() != 7 {
        return None;
    }
    month_of(text.as_bytes())
}

/// The days of the day or the month that a text names, by the present day. `None` if it names none,
/// or one before 1970.
pub(crate) fn days_named(text: &str, today: u32) -> Option<Days>
    requires { today < days_in_range }
    ensures names { MatchOption result ((first : ℕ) (end : ℕ) → AreDays text.now today first end → ⊥)
        (λ days. AreDays text.now today days.first days.end) }
    ensures bound { IfSome result (λ days. (days.first ≤ days.end) × (days.end ≤ 48_000)) }
{
    if let Some(day) = day_named(text, today) {
        return Some(Days {
            first: day,
            end: day + 1,
        });
    }
    let Some(month) = month_named(text) else {
        return None;
    };
    let first = KnownMonth::of_number(month.first).first_day();
    Some(Days {
        first,
        end: first + length_of(month.first),
    })
}

// The seconds from midnight to the hour and minute that a text spells. `None` if it spells none.
fn minute_of_day(text: &[u8]) -> Option<u32>
    requires { length text.now ≡ 5 }
    ensures spelled { IfSome result (IsMinuteOfDay text.now) }
    ensures only { (n : ℕ) → IsMinuteOfDay text.now n → result ≡ Some n }
{
    let hour = two_at(text, 0)?;
    let minute = two_at(text, 3)?;
    if text[2] != b':' || hour > 23 || minute > 59 {
        return None;
    }
    Some(hour * 3600 + minute * 60)
}

// The seconds from midnight to the hour, minute and second that a text spells. `None` if it spells
// none.
fn second_of_day(text: &[u8]) -> Option<u32>
    requires { length text.now ≡ 8 }
    ensures spelled { IfSome result (IsSecondOfDay text.now) }
    ensures only { (n : ℕ) → IsSecondOfDay text.now n → result ≡ Some n }
{
    let hour = two_at(text, 0)?;
    let minute = two_at(text, 3)?;
    let second = two_at(text, 6)?;
    if text[2] != b':' || text[5] != b':' || hour > 23 || minute > 59 || second > 59 {
        return None;
    }
    Some(hour * 3600 + minute * 60 + second)
}

/// The seconds from midnight to a time of day, such as `14:30` or `14:30:15`. `None` for any other
/// text.
pub(crate) fn time_of_day(text: &str) -> Option<u32>
    ensures time { TellsSecond (IsTimeOfDay text.now) result }
    ensures bound { IfSome result (λ n. n < 86_400) }
{
    let text = text.as_bytes();
    match text.len() {
        5 => minute_of_day(text),
        8 => second_of_day(text),
        _ => None,
    }
}
