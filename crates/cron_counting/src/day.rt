//! The number of fires on a day. A stretch is civil seconds that the zone reads at the same
//! offsets, so each match in it has the same number of fires.
ghost use Rattle.std.specs.Prelude.{◌≡◌, ◌+◌, ◌*◌, ◌<◌, ◌≤◌, ◌∷◌, [], ℕ, length, IsTrue};
ghost use Rattle.jiff.specs.Words.{plain_zone};
ghost use Rattle.cron_clocks.specs.Steady.{IsKnown, readings_at};
ghost use Rattle.cron_moments.specs.Civil.{days_in_range, seconds_in_range};
ghost use Rattle.cron_counting.specs.Inner.Times.{fits_any, fits_in, has_rest, readings_in};
ghost use Rattle.cron_counting.specs.Inner.Totals.{ones, total};

use crate::hour::count_hour;
use crate::span::{HOUR, Span};
use crate::times::Times;
use cron_bits::words::Words;
use cron_clocks::stretch::Stretch;
use cron_moments::civil::SECONDS_PER_DAY;
use jiff::tz::TimeZone;

// The number of times of day that a schedule has in each of its hours.
fn count_hourly(times: &Times) -> u32
    ensures value { result ≡ total (λ u. ones (has_rest times.now u)) 3_600 }
    ensures few { result ≤ 3_600 }
{
    times.minutes.below(60).count() * times.seconds.below(60).count()
}

// The number of times of day that a schedule has.
fn count_product(times: &Times) -> u32
    ensures value { result ≡ total (λ t. ones (fits_any (times.now ∷ []) t)) 86_400 }
    ensures few { result ≤ 86_400 }
{
    times.hours.below(24).count() * count_hourly(times)
}

// The number of `times` within `span`, counted hour by hour from the span's first hour.
fn count_hours(times: &[Times], span: Span) -> u32
    ensures value { result ≡ total (λ t. ones (fits_in times.now span t)) 86_400 }
    ensures few { result ≤ 86_400 }
{
    let end = span.end.div_ceil(HOUR).min(24);
    let first = (span.first / HOUR).min(end);
    let mut count = 0;
    for hour in first..end {
        count += count_hour(times, hour, span);
    }
    count
}

/// The number of `times` within `span`. For one schedule and a whole day it is the product of its
/// numbers of hours, minutes and seconds.
pub(crate) fn count_times(times: &[Times], span: Span) -> u32
    ensures value { result ≡ total (λ t. ones (fits_in times.now span t)) 86_400 }
    ensures few { result ≤ 86_400 }
{
    match times {
        [only] if span.covers_day() => count_product(only),
        _ => count_hours(times, span),
    }
}

/// The number of instants, 0 to 2, when the clock shows each civil second of `stretch`.
pub(crate) fn readings_of(stretch: &Stretch) -> u32
    ensures value { (k : ℕ)
        → result ≡ length (readings_at k stretch.now.earlier stretch.now.later) }
    ensures few { result ≤ 2 }
{
    match (stretch.earlier, stretch.later) {
        (None, _) => 0,
        (Some(_), None) => 1,
        (Some(_), Some(_)) => 2,
    }
}

/// Replaces `stretch` by one that holds the civil second `second`, unless it already does.
pub(crate) fn move_to(stretch: &mut Stretch, second: u32, zone: &TimeZone<'_>)
    requires range { second < seconds_in_range }
    requires known { IsKnown (plain_zone zone.now) stretch.old }
    ensures known { IsKnown (plain_zone zone.now) stretch.new }
    ensures low { stretch.new.first ≤ second }
    ensures high { second < stretch.new.end }
{
    if !stretch.has(second) {
        *stretch = Stretch::at(zone, second);
    }
}

/// Moves `stretch` to one that holds the first second of `day`. Returns true if it holds the whole
/// day.
pub(crate) fn covers_day(stretch: &mut Stretch, day: u32, zone: &TimeZone<'_>) -> bool
    requires day { day < days_in_range }
    requires known { IsKnown (plain_zone zone.now) stretch.old }
    ensures known { IsKnown (plain_zone zone.now) stretch.new }
    ensures whole { IsTrue result
        → (stretch.new.first ≤ day * 86_400) × (day * 86_400 + 86_400 ≤ stretch.new.end) }
{
    let midnight = day * SECONDS_PER_DAY;
    move_to(stretch, midnight, zone);
    midnight + SECONDS_PER_DAY <= stretch.end
}

/// The number of fires of one schedule in each of its hours, on a day within `stretch`.
pub(crate) fn hourly_readings(times: &Times, stretch: &Stretch) -> u32
    ensures { (k : ℕ)
        → result
        ≡ length (readings_at k stretch.now.earlier stretch.now.later)
        * total (λ u. ones (has_rest times.now u)) 3_600 }
{
    readings_of(stretch) * count_hourly(times)
}

/// The number of fires that `times` have within `span` of `day`. `stretch` is a stretch of `zone`:
/// it is moved on as needed, so that later calls can go on from it.
pub(crate) fn count_readings(
    times: &[Times],
    day: u32,
    span: Span,
    zone: &TimeZone<'_>,
    stretch: &mut Stretch,
) -> u32
    requires day { day < days_in_range }
    requires order { span.first ≤ span.end }
    requires end { span.end ≤ 86_400 }
    requires known { IsKnown (plain_zone zone.now) stretch.old }
    ensures value { result ≡ total (readings_in times.now (plain_zone zone.now) day span) 86_400 }
    ensures known { IsKnown (plain_zone zone.now) stretch.new }
{
    let midnight = day * SECONDS_PER_DAY;
    let mut first = span.first;
    let mut count = 0;
    while first < span.end {
        move_to(stretch, midnight + first, zone);
        let end = (stretch.end - midnight).min(span.end);
        count += readings_of(stretch) * count_times(times, Span { first, end });
        first = end;
    }
    count
}
