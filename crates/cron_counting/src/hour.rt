//! The number of times of day in an hour.
ghost use Rattle.std.specs.Prelude.{◌≡◌, ◌+◌, ◌*◌, ◌<◌, ◌≤◌, ◌&&◌, ℕ};
ghost use Rattle.std.specs.List.{list_any};
ghost use Rattle.cron_bits.specs.Words.{has_bit};
ghost use Rattle.cron_counting.specs.Inner.Times.{fits_in, has_minute, has_second, is_within};
ghost use Rattle.cron_counting.specs.Inner.Totals.{ones, total};

use crate::span::{HOUR, Span};
use crate::times::Times;
use cron_bits::words::Words;

// The seconds of all `times` that include `hour`.
fn seconds_at(times: &[Times], hour: u32) -> u64
    ensures { (s : ℕ) → has_bit result s ≡ list_any (has_second hour s) times.now }
{
    let mut seconds = u64::none();
    for part in times {
        if part.hours.contains(hour) {
            seconds = seconds.join(part.seconds);
        }
    }
    seconds
}

// The minutes of all `times` that include `hour` and `second`.
fn minutes_at(times: &[Times], hour: u32, second: u32) -> u64
    ensures { (m : ℕ) → has_bit result m ≡ list_any (has_minute hour m second) times.now }
{
    let mut minutes = u64::none();
    for part in times {
        if part.hours.contains(hour) && part.seconds.contains(second) {
            minutes = minutes.join(part.minutes);
        }
    }
    minutes
}

// Whether `minute` is among `minutes` and `span` holds `time`, a second of that minute.
fn is_taken(minutes: u64, minute: u32, time: u32, span: Span) -> bool
    ensures { result ≡ (is_within span time && has_bit minutes minute) }
{
    span.has(time) && minutes.contains(minute)
}

// The number of `minutes` of an hour whose second is within `span`. The second of minute 0 is
// `start` seconds after midnight. The second of minute `m` is `m * 60` seconds later.
fn count_cut(minutes: u64, start: u32, span: Span) -> u32
    requires { start < 86_400 }
    ensures value { result
        ≡ total (λ m. ones (is_within span (m * 60 + start) && has_bit minutes m)) 60 }
    ensures few { result ≤ 60 }
{
    let mut count = 0;
    for minute in 0..60 {
        count += u32::from(is_taken(minutes, minute, minute * 60 + start, span));
    }
    count
}

// The number of `times` in `hour` at `second` that are within `span`.
fn count_second(times: &[Times], hour: u32, second: u32, span: Span) -> u32
    requires hour { hour < 24 }
    requires second { second < 60 }
    ensures value { result
        ≡ total (λ m. ones (fits_in times.now span (hour * 3600 + (m * 60 + second)))) 60 }
    ensures few { result ≤ 60 }
{
    let minutes = minutes_at(times, hour, second);
    if span.covers_hour(hour) {
        minutes.below(60).count()
    } else {
        count_cut(minutes, hour * HOUR + second, span)
    }
}

/// The number of `times` that are in `hour` and within `span`. In an hour that the span covers, the
/// minutes of each second are counted by bits. Only in an hour that the span cuts, each minute is
/// checked.
pub(crate) fn count_hour(times: &[Times], hour: u32, span: Span) -> u32
    requires hour { hour < 24 }
    ensures value { result
        ≡ total (λ u. ones (fits_in times.now span (hour * 3600 + u))) 3_600 }
    ensures few { result ≤ 3_600 }
{
    if span.misses_hour(hour) {
        return 0;
    }
    let seconds = seconds_at(times, hour);
    let mut count = 0;
    for second in 0..60 {
        if seconds.contains(second) {
            count += count_second(times, hour, second, span);
        }
    }
    count
}
