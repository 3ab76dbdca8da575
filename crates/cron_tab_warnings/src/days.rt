//! Days of the month that some named month lacks, and fields that begin with a star.

ghost use Rattle.std.specs.Prelude.{◌≡◌, ◌≤◌};
ghost use Rattle.cron_tab_warnings.specs.Written.{names_all};
ghost use Rattle.cron_tab_warnings.specs.Warnings.{has_each_minute, is_left_out, is_star_step, lacks, leaves_out, other_days, restricts_both, shortest, some_lacks, stars_step};

use crate::items::names;
use crate::words::{field_word, size};
use cron_crontab::{Field, begins_with_star};

/// Returns true if the field `word` has all numbers of `field`, by whichever items.
fn names_all(field: Field, word: &str) -> bool
    ensures { result ≡ names_all field word.now }
{
    for place in 0..size(field) {
        if !names(field, word, field.least() + place) {
            return false;
        }
    }
    true
}

/// The number of days of `month` in a year that isn't a leap year.
fn shortest(month: u32) -> u32
    ensures { result ≡ shortest month }
{
    match month {
        2 => 28,
        4 | 6 | 9 | 11 => 30,
        _ => 31,
    }
}

/// Returns true if the month field `months` names `month`, and `month` has no `day` in some or all
/// years.
fn lacks(months: &str, month: u32, day: u32) -> bool
    ensures { result ≡ lacks months.now month day }
{
    shortest(month) < day && names(Field::Month, months, month)
}

/// Returns true if the month field `months` names a month that has no `day` in some or all years.
fn some_lacks(months: &str, day: u32) -> bool
    ensures { result ≡ some_lacks months.now day 12 }
{
    for before in 0..12_u32 {
        if lacks(months, before + 1, day) {
            return true;
        }
    }
    false
}

fn is_left_out(text: &str, day: u32) -> bool
    ensures { result ≡ is_left_out text.now day }
{
    names(Field::DayOfMonth, field_word(text, Field::DayOfMonth), day)
        && some_lacks(field_word(text, Field::Month), day)
}

/// Returns true if the day field of `text` names a day that a month in its month field lacks, in
/// some or all years. A day field that begins with a star or names all days isn't counted.
pub(crate) fn leaves_out(text: &str) -> bool
    ensures { result ≡ leaves_out text.now }
{
    let days = field_word(text, Field::DayOfMonth);
    if begins_with_star(days) || names_all(Field::DayOfMonth, days) {
        return false;
    }
    is_left_out(text, 29) || is_left_out(text, 30) || is_left_out(text, 31)
}

fn other_days(field: Field) -> Field
    ensures { result ≡ other_days field }
{
    match field {
        Field::DayOfMonth => Field::DayOfWeek,
        _ => Field::DayOfMonth,
    }
}

fn stars_step(field: Field, text: &str) -> bool
    ensures { result ≡ stars_step field text.now }
{
    let word = field_word(text, field);
    begins_with_star(word)
        && !begins_with_star(field_word(text, other_days(field)))
        && !names_all(field, word)
}

/// Returns true if `field` is one of the two kinds of day, begins with a star and leaves days out,
/// and the other kind doesn't begin with a star. Both kinds must match then.
pub(crate) fn is_star_step(field: Field, text: &str) -> bool
    ensures { result ≡ is_star_step field text.now }
{
    match field {
        Field::DayOfMonth | Field::DayOfWeek => stars_step(field, text),
        _ => false,
    }
}

/// Returns true if neither kind of day begins with a star. One that matches suffices then.
pub(crate) fn restricts_both(text: &str) -> bool
    ensures { result ≡ restricts_both text.now }
{
    !begins_with_star(field_word(text, Field::DayOfMonth))
        && !begins_with_star(field_word(text, Field::DayOfWeek))
}

/// Returns true if the minute of `text` begins with a star and names all minutes, and its hour
/// leaves hours out.
pub(crate) fn has_each_minute(text: &str) -> bool
    ensures { result ≡ has_each_minute text.now }
{
    let minutes = field_word(text, Field::Minute);
    begins_with_star(minutes)
        && names_all(Field::Minute, minutes)
        && !names_all(Field::Hour, field_word(text, Field::Hour))
}
