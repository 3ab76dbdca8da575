//! The words that stand for a whole schedule.

ghost use Rattle.std.specs.Prelude.{◌≡◌};
ghost use Rattle.cron_text.specs.Meaning.{shorthand_of};
ghost use Rattle.cron_text.specs.Meaning as meaning;

use cron_units::fields::ScheduleFields;
use cron_units::time_unit::{only, whole};

fn hourly() -> ScheduleFields
    ensures { result ≡ meaning.hourly }
{
    ScheduleFields {
        seconds: only(0),
        minutes: only(0),
        hours: whole(),
        days_of_month: whole(),
        months: whole(),
        days_of_week: whole(),
        years: whole(),
    }
}

fn daily() -> ScheduleFields
    ensures { result ≡ meaning.daily }
{
    ScheduleFields {
        hours: only(0),
        ..hourly()
    }
}

fn weekly() -> ScheduleFields
    ensures { result ≡ meaning.weekly }
{
    ScheduleFields {
        days_of_week: only(1),
        ..daily()
    }
}

fn monthly() -> ScheduleFields
    ensures { result ≡ meaning.monthly }
{
    ScheduleFields {
        days_of_month: only(1),
        ..daily()
    }
}

fn yearly() -> ScheduleFields
    ensures { result ≡ meaning.yearly }
{
    ScheduleFields {
        months: only(1),
        ..monthly()
    }
}

/// The schedule that the shorthand `word` means, or `None` if it is no shorthand.
pub fn shorthand_named(word: &[u8]) -> Option<ScheduleFields>
    ensures { result ≡ shorthand_of word.now }
{
    if word == b"@yearly".as_slice() {
        return Some(yearly());
    }
    if word == b"@monthly".as_slice() {
        return Some(monthly());
    }
    if word == b"@weekly".as_slice() {
        return Some(weekly());
    }
    if word == b"@daily".as_slice() {
        return Some(daily());
    }
    if word == b"@hourly".as_slice() {
        return Some(hourly());
    }
    if word == b"@annually".as_slice() {
        return Some(yearly());
    }
    if word == b"@midnight".as_slice() {
        return Some(daily());
    }
    None
}
