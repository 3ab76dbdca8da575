//! Dates as files write them, read into the numbers of days.
ghost use Rattle.std.specs.Prelude.{◌≡◌, ◌+◌, ◌≤◌, Ok, Err, MatchResult, length};
ghost use Rattle.std.specs.List.{list_all};
ghost use Rattle.cron_holidays.specs.Dates.{date_at, day_numbered, day_of_dashed, day_of_digits, is_digit, number_below, two_at};

use crate::fault::Reason;
use jiff_core::civil::Date;

/// How many days there are from the first date of `jiff_core` to 1970-01-01.
const DAYS_FROM_FIRST_DATE: u32 = 4_371_587;

/// The date that is `day` days after 1970-01-01.
pub(crate) fn date_at(day: u16) -> jiff::civil::Date
    ensures { result ≡ date_at day }
{
    jiff::civil::Date::from_plain(Date::from_days_since_min(u32::from(day) + DAYS_FROM_FIRST_DATE))
}

/// The number of a day since 1970-01-01, which must be less than `end`.
fn number_below(end: u16, number: i32) -> Result<u16, Reason>
    ensures { MatchResult result
        (λ day. number_below end number ≡ Ok day)
        (λ reason. number_below end number ≡ Err reason) }
{
    if number < 0 || number >= i32::from(end) {
        return Err(Reason::OutOfRange);
    }
    Ok(number as u16)
}

/// The number of the day with these parts, which must be less than `end`.
fn day_numbered(end: u16, year: u32, month: u32, day: u32) -> Result<u16, Reason>
    ensures { MatchResult result
        (λ n. day_numbered end year month day ≡ Ok n)
        (λ reason. day_numbered end year month day ≡ Err reason) }
{
    if year > 9999 || month > 12 || day > 31 {
        return Err(Reason::NoDate);
    }
    match Date::new(year as i16, month as i8, day as i8) {
        Ok(date) => number_below(end, date.to_unix_epoch_day()),
        Err(_) => Err(Reason::NoDate),
    }
}

fn are_digits(text: &[u8]) -> bool
    ensures { result ≡ list_all is_digit text.now }
{
    for byte in text {
        if *byte < b'0' || *byte > b'9' {
            return false;
        }
    }
    true
}

/// The number that two digits write. For other bytes it is an arbitrary number.
fn two_at(text: &[u8], at: usize) -> u32
    requires { at + 2 ≤ length text.now }
    ensures value { result ≡ two_at text.now at }
    ensures bound { result ≤ 2277 }
{
    u32::from(text[at].saturating_sub(b'0')) * 10 + u32::from(text[at + 1].saturating_sub(b'0'))
}

/// Reads a date of eight digits. Its number must be less than `end`.
pub(crate) fn day_of_digits(end: u16, text: &[u8]) -> Result<u16, Reason>
    ensures { MatchResult result
        (λ day. day_of_digits end text.now ≡ Ok day)
        (λ reason. day_of_digits end text.now ≡ Err reason) }
{
    if text.len() != 8 || !are_digits(text) {
        return Err(Reason::NoDate);
    }
    let year = two_at(text, 0) * 100 + two_at(text, 2);
    day_numbered(end, year, two_at(text, 4), two_at(text, 6))
}

/// Reads a date in the form `YYYY-MM-DD`. Its number must be less than `end`.
pub(crate) fn day_of_dashed(end: u16, text: &[u8]) -> Result<u16, Reason>
    ensures { MatchResult result
        (λ day. day_of_dashed end text.now ≡ Ok day)
        (λ reason. day_of_dashed end text.now ≡ Err reason) }
{
    if text.len() != 10 || text[4] != b'-' || text[7] != b'-' {
        return Err(Reason::NoDate);
    }
    let digits = [
        text[0], text[1], text[2], text[3], text[5], text[6], text[8], text[9],
    ];
    day_of_digits(end, &digits)
}
