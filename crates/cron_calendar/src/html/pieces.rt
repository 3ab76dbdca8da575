//! Pieces of a page: numbers, dates and times, and levels of colour.
ghost use Rattle.std.specs.Prelude.{◌≡◌, ◌+◌, ◌%◌, ◌++◌, ◌<◌, ◌≤◌, unsigned_abs, IfOk, OnOk};
ghost use Rattle.std.specs.Fmt.{decimal};
ghost use Rattle.cron_moments.specs.MomentText.{time_text};
ghost use Rattle.cron_calendar.specs.Html.{day_text};
ghost use Rattle.cron_calendar.specs.Shapes.{level_of};

use cron_moments::calendar::KnownMonth;
use itoa::Buffer;
use jiff::civil::{Date, Time};
use std::alloc::{AllocError, Global};

/// Appends a text unchanged.
pub(crate) fn push_text(page: &mut Vec<u8>, text: &str) -> Result<(), AllocError>
    ensures { OnOk result (page.new.items ≡ page.old.items ++ text.now) }
{
    page.extend_from_slice(text.as_bytes())
}

/// Appends a number in decimal digits.
pub(crate) fn push_number(page: &mut Vec<u8>, number: u32) -> Result<(), AllocError>
    ensures { OnOk result (page.new.items ≡ page.old.items ++ decimal number) }
{
    let mut buffer = Buffer::new();
    push_text(page, buffer.format(number))
}

/// A number in decimal digits.
pub(super) fn number_text(alloc: Global, number: u32) -> Result<Vec<u8>, AllocError>
    ensures { IfOk result (λ text. text.items ≡ decimal number) }
{
    let mut text = Vec::new(alloc);
    push_number(&mut text, number)?;
    Ok(text)
}

// The last digit of a number.
fn digit(number: u32) -> u8
    ensures { result ≡ 48 + number % 10 }
{
    b'0' + (number % 10) as u8
}

// The year of a date, without its sign.
fn year_of(date: Date) -> u32
    ensures { result ≡ unsigned_abs date.year }
{
    u32::from(date.year().unsigned_abs())
}

// A date, as `2024-02-29`.
fn date_text(date: Date) -> [u8; 10]
    ensures { result ≡ day_text date }
{
    let (year, month, day) = (year_of(date), date.month() as u32, date.day() as u32);
    [
        digit(year / 100 / 10),
        digit(year / 100),
        digit(year / 10),
        digit(year),
        b'-',
        digit(month / 10),
        digit(month),
        b'-',
        digit(day / 10),
        digit(day),
    ]
}

/// A time of day, as `02:30:00`.
pub(crate) fn time_text(time: Time) -> [u8; 8]
    ensures { result ≡ time_text time }
{
    let (hour, minute, second) = (
        time.hour() as u32,
        time.minute() as u32,
        time.second() as u32,
    );
    [
        digit(hour / 10),
        digit(hour),
        b':',
        digit(minute / 10),
        digit(minute),
        b':',
        digit(second / 10),
        digit(second),
    ]
}

/// Appends a date, as `2024-02-29`.
pub(crate) fn push_date(page: &mut Vec<u8>, date: Date) -> Result<(), AllocError>
    ensures { OnOk result (page.new.items ≡ page.old.items ++ day_text date) }
{
    page.extend_from_slice(&date_text(date))
}

/// The number of days that precede `month` in its year. Months are numbered from January of the
/// year 0.
pub(super) fn days_before(month: u32) -> u32
    requires { (23_640 ≤ month) × (month < 25_212) }
{
    let first = KnownMonth::of_number(month / 12 * 12).first_day();
    KnownMonth::of_number(month)
        .first_day()
        .saturating_sub(first)
}

/// The level of colour of a number: 0 for none, and else 1 to 4 by the quarter of `most`, the
/// greatest number, that it is in. The greatest number has level 4.
pub(super) fn level_of(count: u32, most: u32) -> u32
    ensures { result ≡ level_of count most }
{
    if most == 0 {
        return 0;
    }
    let quarters = u64::from(count.min(most)) * 4;
    ((quarters + u64::from(most) - 1) / u64::from(most)) as u32
}
