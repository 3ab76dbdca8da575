//! Times of UTC as a calendar writes them, as `20220313T080000Z`.
ghost use Rattle.std.specs.Prelude.{◌≡◌, ◌+◌, ◌%◌, IfOk, unsigned_abs};
ghost use Rattle.cron_ics.specs.Stamps.{date_digits, stamp_text, time_digits};

use jiff::civil::{Date, DateTime, Time};
use std::alloc::{AllocError, Global};

// The last digit of a number.
fn digit(number: u32) -> u8
    ensures { result ≡ 48 + number % 10 }
{
    b'0' + (number % 10) as u8
}

// The year of a date, without its sign.
fn year_of(date: Date) -> u32
    ensures { result ≡ unsigned_abs date.year }
{
    u32::from(date.year().unsigned_abs())
}

// A date, as `20220313`.
fn date_digits(date: Date) -> [u8; 8]
    ensures { result ≡ date_digits date }
{
    let (year, month, day) = (year_of(date), date.month() as u32, date.day() as u32);
    [
        digit(year / 100 / 10),
        digit(year / 100),
        digit(year / 10),
        digit(year),
        digit(month / 10),
        digit(month),
        digit(day / 10),
        digit(day),
    ]
}

// A time of day, as `080000`.
fn time_digits(time: Time) -> [u8; 6]
    ensures { result ≡ time_digits time }
{
    let (hour, minute, second) = (
        time.hour() as u32,
        time.minute() as u32,
        time.second() as u32,
    );
    [
        digit(hour / 10),
        digit(hour),
        digit(minute / 10),
        digit(minute),
        digit(second / 10),
        digit(second),
    ]
}

/// A time of UTC, as `20220313T080000Z`.
pub(crate) fn stamp_of(alloc: Global, utc: DateTime) -> Result<Vec<u8>, AllocError>
    ensures { IfOk result (λ stamp. stamp.items ≡ stamp_text utc) }
{
    let mut stamp = Vec::from_slice(alloc, &date_digits(utc.date()))?;
    stamp.extend_from_slice(b"T")?;
    stamp.extend_from_slice(&time_digits(utc.time()))?;
    stamp.extend_from_slice(b"Z")?;
    Ok(stamp)
}
