//! The reader of a due fire's text.
ghost use Rattle.std.specs.Prelude.{◌≡◌, ℕ, ◌+◌, ◌*◌, ◌/◌, ◌%◌, ◌<◌, ◌≤◌, ◌^◌, ◌⊎◌, pos, unsigned_abs, IfOk, IfSome, Ok, Some, length};
ghost use Rattle.jiff_core.specs.Calendar.{IsBetween};
ghost use Rattle.jiff_core.specs.declared.Offset.{Offset};
ghost use Rattle.cron_moments.specs.Civil.{civil};
ghost use Rattle.cron_moments.specs.MomentText.{date_text, offset_text, time_text};
ghost use Rattle.cron_dues.specs.Due.{CanBeDue, Due};
ghost use Rattle.cron_dues.specs.DueText.{due_text};
ghost use Rattle.cron_dues.specs.DueReading.{HasText};
ghost use Rattle.cron_dues.specs.Inner.Digits.{CanEnd, number_at};

use crate::fire::{DueFire, due_fire};
use crate::text::text_of;
use cron_moments::civil::{FURTHEST_OFFSET, SECONDS, civil_number};
use jiff::civil::{Date, Time};
use jiff::tz::Offset;
use std::error::Error;
use std::fmt;
use std::str::FromStr;

/// The error for a text that isn't the text of a due fire.
#[derive(Clone, Copy, Debug, PartialEq, Eq)]
pub struct NoDueText;

impl fmt::Display for NoDueText {
    ghost use Rattle.std.specs.Prelude.{Some, codes};

    ghost output = { λ _. Some
        (codes "it is not the text of a due fire, as 2022-03-13 03:00:00 -05:00 for 02:30:00") };

    fn fmt<W: fmt::Write>(&self, f: &mut fmt::Formatter<W>) -> fmt::Result {
        f.write_str("it is not the text of a due fire, as 2022-03-13 03:00:00 -05:00 for 02:30:00")
    }
}

impl Error for NoDueText {}

// The number of the two digits at `at`. For other bytes it is an arbitrary number.
fn two_at(text: &[u8], at: usize) -> u32
    requires { at + 2 ≤ length text.now }
    ensures value { result ≡ number_at text.now at }
    ensures bound { result ≤ 2277 }
{
    u32::from(text[at].saturating_sub(b'0')) * 10 + u32::from(text[at + 1].saturating_sub(b'0'))
}

// The number of the first second of a day, from the text of its date. `None` if no date has that
// text.
fn midnight_of(text: &[u8]) -> Option<i64>
    requires { length text.now ≡ 10 }
    ensures { (c : ℕ) → c < 2 ^ 32
        → text.now ≡ date_text (civil c).date
        → result ≡ Some (pos (c / 86_400 * 86_400)) }
{
    let year = two_at(text, 0) * 100 + two_at(text, 2);
    let month = two_at(text, 5);
    let day = two_at(text, 8);
    if year > 9999 || month > 12 || day > 31 {
        return None;
    }
    let date = Date::new(year as i16, month as i8, day as i8).ok()?;
    Some(civil_number(date.to_datetime(Time::midnight())))
}

// The seconds since midnight, from the text of a time of day.
fn seconds_of_day(text: &[u8]) -> u32
    requires { length text.now ≡ 8 }
    ensures value { (c : ℕ) → text.now ≡ time_text (civil c).time → result ≡ c % 86_400 }
    ensures bound { result ≤ 8_336_097 }
{
    two_at(text, 0) * 3600 + two_at(text, 3) * 60 + two_at(text, 6)
}

// The number of a civil second, from the texts of its date and its time. `None` if no date has the
// first text.
fn second_of(date: &[u8], time: &[u8]) -> Option<u32>
    requires date { length date.now ≡ 10 }
    requires time { length time.now ≡ 8 }
    ensures { (c : ℕ) → c < 2 ^ 32
        → date.now ≡ date_text (civil c).date
        → time.now ≡ time_text (civil c).time
        → result ≡ Some c }
{
    let midnight = midnight_of(date)?;
    u32::try_from(midnight.saturating_add(i64::from(seconds_of_day(time)))).ok()
}

// The seconds of an offset without its sign, from its text.
fn offset_size(text: &[u8]) -> i32
    requires { (length text.now ≡ 6) ⊎ (length text.now ≡ 9) }
    ensures value { (o : Offset) → text.now ≡ offset_text o.seconds
        → result ≡ pos (unsigned_abs o.seconds) }
    ensures bound { IsBetween (pos 0) (pos 10_000_000) result }
{
    let minutes = two_at(text, 1) * 60 + two_at(text, 4);
    if text.len() == 6 {
        return (minutes * 60) as i32;
    }
    (minutes * 60 + two_at(text, 7)) as i32
}

// The offset of a clock, from its text. `None` if no clock has such an offset.
fn offset_of(text: &[u8]) -> Option<Offset>
    requires { (length text.now ≡ 6) ⊎ (length text.now ≡ 9) }
    ensures { (o : Offset) → text.now ≡ offset_text o.seconds → result ≡ Some o }
{
    let size = offset_size(text);
    let seconds = if text[0] == b'-' { -size } else { size };
    Offset::from_seconds(seconds).ok()
}

// The place where the text of the offset ends, in a text of `len` bytes. It is the end of the text,
// or the beginning of ` for ` and a nominal time. `None` if no due fire's text has this length.
fn offset_end(len: usize) -> Option<usize>
    ensures ends { IfSome result (CanEnd len) }
    ensures only { (end : ℕ) → CanEnd len end → result ≡ Some end }
{
    match len {
        26 | 39 | 50 => Some(26),
        29 | 42 | 53 => Some(29),
        _ => None,
    }
}

// The number of the nominal second, from a text whose offset ends at `end`. Without a nominal time
// it is `shown`. On the day of `shown` the text has only a time, and otherwise a date and a time.
fn nominal_of(text: &[u8], end: usize, shown: u32) -> Option<u32>
    requires { CanEnd (length text.now) end }
    ensures { (d : Due) → CanBeDue d
        → text.now ≡ due_text d
        → shown ≡ d.second + d.past
        → result ≡ Some d.second }
{
    if text.len() == end {
        return Some(shown);
    }
    if text.len() == end + 13 {
        return second_of(&text[..10], &text[end + 5..]);
    }
    second_of(&text[end + 5..end + 15], &text[end + 16..])
}

// The due fire with these numbers, or `None` if there can't be one.
fn fire_of(nominal: u32, shown: u32, offset: Offset) -> Option<DueFire>
    ensures { (d : Due) → CanBeDue d
        → nominal ≡ d.second
        → shown ≡ d.second + d.past
        → offset ≡ d.offset
        → result ≡ Some d }
{
    if shown < nominal {
        return None;
    }
    let past = shown - nominal;
    if i64::from(nominal) >= SECONDS || i64::from(past) > 2 * FURTHEST_OFFSET {
        return None;
    }
    Some(due_fire(nominal, past, offset))
}

// The due fire whose text is `text`, if there is one. For other texts it is an arbitrary fire or
// `None`.
fn guess(text: &[u8]) -> Option<DueFire>
    ensures { (d : Due) → CanBeDue d → text.now ≡ due_text d → result ≡ Some d }
{
    let end = offset_end(text.len())?;
    let shown = second_of(&text[..10], &text[11..19])?;
    let nominal = nominal_of(text, end, shown)?;
    fire_of(nominal, shown, offset_of(&text[20..end])?)
}

/// Reads the text of a due fire, in the form that its `Display` prints: `2022-03-13 03:00:00 -05:00
/// for 02:30:00`. Each other text is an error, even if it only says more or less than is needed.
pub fn read(text: &str) -> Result<DueFire, NoDueText>
    ensures text { IfOk result (HasText text.now) }
    ensures only { (d : Due) → HasText text.now d → result ≡ Ok d }
{
    match guess(text.as_bytes()) {
        Some(fire) if text_of(&fire).as_slice() == text.as_bytes() => Ok(fire),
        _ => Err(NoDueText),
    }
}

impl FromStr for DueFire {
    type Err = NoDueText;

    ghost use Rattle.std.specs.Prelude.{◌≡◌, IfOk, Ok};
    ghost use Rattle.cron_dues.specs.Due.{Due};
    ghost use Rattle.cron_dues.specs.DueReading.{HasText};

    ghost from_str_gives = { λ text r. IfOk r (HasText text)
        × ((d : Due) → HasText text d → r ≡ Ok d) };

    fn from_str(text: &str) -> Result<DueFire, NoDueText> {
        read(text)
    }
}
