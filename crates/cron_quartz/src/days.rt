//! The two fields of days: forms that are a whole field, as `L` or `15W`, and lists of items.

ghost use Rattle.std.specs.Prelude.{◌≡◌, ◌<◌, ◌==◌, ◌&&◌, IfOk, MatchOption, MatchResult, Ok, Err, drop, length, true, false};
ghost use Rattle.cron_crontab.specs.Items.{pieces};
ghost use Rattle.cron_quartz.specs.Quartz.{all_but_last, begins_with, cut_weekdays, dates_of, days_of, ends_with, last_form_of, nth_of, offset_of, weekdays_of};
ghost use Rattle.cron_quartz.specs.Fields.{unit_of};
ghost use Rattle.cron_quartz.specs.Refusals.{refused};
ghost use Rattle.cron_quartz.specs.Views.{fault_view, reason_view};
ghost use Rattle.cron_quartz.specs.FormViews.{days_view};
ghost use Rattle.cron_quartz.specs.Inner.Forms.{AreDays};

use crate::faults::{Fault, Reason, RefusedItem};
use crate::field::Field;
use crate::numbers::{read_end, read_number};
use crate::sets::read_set;
use cron_crontab::cut_at;
use cron_units::time_unit::{DaysOfMonth, DaysOfWeek, only};

const SATURDAY: u32 = 7;

/// The days of an expression. Days of the week are numbered from 1 for Sunday.
#[derive(Clone, Copy)]
pub enum Days {
    Dates(DaysOfMonth),
    /// `L` or `L-3`: the day this number of days before the last of the month, 30 at most.
    BeforeLast(u32),
    /// `15W`: the workday nearest to this day of the month.
    NearestWorkday(u32),
    /// `LW` or `L-3W`: the workday nearest to the day this number of days before the last of the
    /// month, 30 at most.
    LastWorkday(u32),
    Weekdays(DaysOfWeek),
    /// `6L`: the last such day of the week in the month.
    LastWeekday(u32),
    /// `6#3`: the third such day of the week in the month. The second number is 5 at most.
    NthWeekday(u32, u32),
}

// Returns true if `text` begins with `letter` in either case. `letter` may be another sign.
fn begins_with(text: &str, letter: u8) -> bool
    requires { 0 < letter }
    ensures { result ≡ begins_with letter text.now }
{
    match text.as_bytes().first() {
        Some(byte) => byte.eq_ignore_ascii_case(&letter),
        None => false,
    }
}

fn ends_with(text: &str, letter: u8) -> bool
    requires { 0 < letter }
    ensures { result ≡ ends_with letter text.now }
{
    match text.as_bytes().last() {
        Some(byte) => byte.eq_ignore_ascii_case(&letter),
        None => false,
    }
}

// `text` without its first byte, or `None` if that byte isn't `letter` in either case.
fn behind_first(text: &str, letter: u8) -> Option<&str>
    requires some { 0 < letter }
    requires ascii { letter < 128 }
    ensures { MatchOption result
        (begins_with letter text.now ≡ false)
        (λ rest. (begins_with letter text.now ≡ true) × (rest.now ≡ drop 1 text.now)) }
{
    if begins_with(text, letter) {
        Some(&text[1..])
    } else {
        None
    }
}

// `text` without its last byte, or `None` if that byte isn't `letter` in either case.
fn before_last(text: &str, letter: u8) -> Option<&str>
    requires some { 0 < letter }
    requires ascii { letter < 128 }
    ensures { MatchOption result
        (ends_with letter text.now ≡ false)
        (λ rest. (ends_with letter text.now ≡ true) × (rest.now ≡ all_but_last text.now)) }
{
    if ends_with(text, letter) {
        Some(&text[..text.len().saturating_sub(1)])
    } else {
        None
    }
}

// Returns true if `text` is only `letter`, in either case.
fn is_letter(text: &str, letter: u8) -> bool
    requires { 0 < letter }
    ensures { result ≡ (length text.now == 1 && begins_with letter text.now) }
{
    text.len() == 1 && begins_with(text, letter)
}

// The fault of `word`, which as the whole of `field` is refused for `reason`.
fn refused<'a>(field: Field, word: &'a str, reason: Reason<'a>) -> Fault<'a>
    ensures { fault_view result ≡ refused (unit_of field) word.now (reason_view reason.entry) }
{
    Fault::Refused(RefusedItem {
        field,
        item: word,
        reason,
    })
}

// Reads `L-3` or `L-3W`. `text` is the part after `L-`.
fn read_offset(text: &str) -> Result<Days, Reason<'_>>
    ensures days { MatchResult result
        (λ d. offset_of text.now ≡ Ok (days_view d))
        (λ r. offset_of text.now ≡ Err (reason_view r)) }
    ensures within { IfOk result AreDays }
{
    match before_last(text, b'W') {
        Some(front) => Ok(Days::LastWorkday(read_number(front, 0, 30)?)),
        None => Ok(Days::BeforeLast(read_number(text, 0, 30)?)),
    }
}

// Reads `L`, `LW`, `L-3` or `L-3W`. `text` is the part after the `L`.
fn read_last_form(text: &str) -> Result<Days, Reason<'_>>
    ensures days { MatchResult result
        (λ d. last_form_of text.now ≡ Ok (days_view d))
        (λ r. last_form_of text.now ≡ Err (reason_view r)) }
    ensures within { IfOk result AreDays }
{
    if text.is_empty() {
        return Ok(Days::BeforeLast(0));
    }
    if let Some(offset) = behind_first(text, b'-') {
        return read_offset(offset);
    }
    if is_letter(text, b'W') {
        Ok(Days::LastWorkday(0))
    } else {
        Err(Reason::NoForm)
    }
}

// Reads the field of the days of the month.
fn read_dates(word: &str) -> Result<Days, Fault<'_>>
    ensures days { MatchResult result
        (λ d. dates_of word.now ≡ Ok (days_view d))
        (λ fault. dates_of word.now ≡ Err (fault_view fault)) }
    ensures within { IfOk result AreDays }
{
    if let Some(rest) = behind_first(word, b'L') {
        return match read_last_form(rest) {
            Ok(days) => Ok(days),
            Err(reason) => Err(refused(Field::DayOfMonth, word, reason)),
        };
    }
    if let Some(front) = before_last(word, b'W') {
        return match read_number(front, 1, 31) {
            Ok(day) => Ok(Days::NearestWorkday(day)),
            Err(reason) => Err(refused(Field::DayOfMonth, word, reason)),
        };
    }
    Ok(Days::Dates(read_set(Field::DayOfMonth, word)?))
}

// Reads `6#3`. `day` is the part before the `#`, and `rest` is the part after it.
fn read_nth<'a>(day: &'a str, rest: &'a str) -> Result<Days, Reason<'a>>
    ensures days { MatchResult result
        (λ d. nth_of day.now (pieces 35 rest.now) ≡ Ok (days_view d))
        (λ r. nth_of day.now (pieces 35 rest.now) ≡ Err (reason_view r)) }
    ensures within { IfOk result AreDays }
{
    let weekday = read_end::<DaysOfWeek>(day)?;
    let (place, more) = cut_at(rest, b'#');
    let number = read_number(place, 1, 5)?;
    match more {
        None => Ok(Days::NthWeekday(weekday.number, number)),
        Some(_) => Err(Reason::Ignored(place)),
    }
}

// Reads a field of days of the week that doesn't end with `L`: `6#3`, or items.
fn read_cut_weekdays(word: &str) -> Result<Days, Fault<'_>>
    ensures days { MatchResult result
        (λ d. cut_weekdays word.now (pieces 35 word.now) ≡ Ok (days_view d))
        (λ fault. cut_weekdays word.now (pieces 35 word.now) ≡ Err (fault_view fault)) }
    ensures within { IfOk result AreDays }
{
    let (day, behind) = cut_at(word, b'#');
    let Some(rest) = behind else {
        return Ok(Days::Weekdays(read_set(Field::DayOfWeek, word)?));
    };
    match read_nth(day, rest) {
        Ok(days) => Ok(days),
        Err(reason) => Err(refused(Field::DayOfWeek, word, reason)),
    }
}

// Reads the field of the days of the week. The word `L` is Saturday.
fn read_weekdays(word: &str) -> Result<Days, Fault<'_>>
    ensures days { MatchResult result
        (λ d. weekdays_of word.now ≡ Ok (days_view d))
        (λ fault. weekdays_of word.now ≡ Err (fault_view fault)) }
    ensures within { IfOk result AreDays }
{
    if is_letter(word, b'L') {
        return Ok(Days::Weekdays(only(SATURDAY)));
    }
    let Some(front) = before_last(word, b'L') else {
        return read_cut_weekdays(word);
    };
    match read_end::<DaysOfWeek>(front) {
        Ok(weekday) => Ok(Days::LastWeekday(weekday.number)),
        Err(reason) => Err(refused(Field::DayOfWeek, word, reason)),
    }
}

/// Reads both fields of days. Exactly one of them must be `?`.
pub(crate) fn read_days<'a>(dates: &'a str, weekdays: &'a str) -> Result<Days, Fault<'a>>
    ensures days { MatchResult result
        (λ d. days_of dates.now weekdays.now ≡ Ok (days_view d))
        (λ fault. days_of dates.now weekdays.now ≡ Err (fault_view fault)) }
    ensures within { IfOk result AreDays }
{
    match (dates == "?", weekdays == "?") {
        (true, true) => Err(Fault::NoDays),
        (true, false) => read_weekdays(weekdays),
        (false, true) => read_dates(dates),
        (false, false) => Err(Fault::BothDays),
    }
}
