//! How long a clock keeps its offset.
ghost use Rattle.std.specs.Prelude.{◌≡◌, neg_ℤ, pos, ◌*ℤ◌, ◌+ℤ◌, ◌≤ℤ◌, ◌<ℤ◌, ℤ, IfSome};
ghost use Rattle.std.specs.Int.{int_div_euclid};
ghost use Rattle.jiff_core.specs.Calendar.{IsBetween, IsYear};
ghost use Rattle.jiff_core.specs.Date.{epoch_day};
ghost use Rattle.jiff_tz.specs.PosixRule.{first_day};
ghost use Rattle.jiff_core.specs.Timestamp.{nanos_of_seconds};
ghost use Rattle.jiff_tz.specs.Zone.{next_at};
ghost use Rattle.cron_dues.specs.Clock.Due.{zone_clock};
ghost use Rattle.cron_dues.specs.Steady.{IsKept, IsOneYear, IsShortOf};

use crate::numbers::lesser;
use cron_clocks::clock::{Kept, kept_by_rule, kept_by_transitions};
use cron_moments::civil::{SECONDS, SECONDS_PER_DAY};
use jiff::Timestamp;
use jiff::tz::{Offset, TimeZone};
use jiff_core::civil::Date;

// The days from the first date of `jiff` to 1970-01-01.
const DAYS_FROM_FIRST_DATE: i64 = 4_371_587;

const DAY: i64 = SECONDS_PER_DAY as i64;

// A second of UTC after the due instants of all civil seconds of the range, by any clock.
const NEVER: i64 = 2 * SECONDS;

/// An offset that a clock keeps before `end`, which is in whole seconds since 1970-01-01T00:00:00Z.
#[derive(Clone, Copy)]
pub struct Steady {
    pub offset: Offset,
    pub end: i64,
    pub ghost near: { IsBetween (neg_ℤ (pos 1_000_000)) (pos 8_267_961_600) end },
}

impl Steady {
    /// What the clock shows at `at`, a second of UTC, as the number of a civil second.
    #[inline(always)]
    pub(crate) fn shown(&self, at: i64) -> i64
        requires { IsBetween (neg_ℤ (pos 1_000_000)) (pos 8_267_961_600) at }
        ensures value { result ≡ at +ℤ self.now.offset.seconds }
        ensures bound { IsBetween (neg_ℤ (pos 2_000_000)) (pos 9_000_000_000) result }
    {
        at + i64::from(self.offset.seconds())
    }
}

/// A span of instants from `from` on where a civil second is due. Before `from` the clock shows
/// neither that civil second nor a later one.
#[derive(Clone, Copy)]
pub struct DueSpan {
    pub from: i64,
    pub steady: Steady,
    pub ghost near: { IsBetween (neg_ℤ (pos 1_000_000)) (pos 8_267_961_600) from },
}

// The UTC date of `second`.
fn date_at(second: i64) -> Date
    requires { IsBetween (neg_ℤ (pos 1_000_000)) (pos 8_000_000_000) second }
    ensures { epoch_day result ≡ int_div_euclid second (pos 86_400) }
{
    let day = second.div_euclid(DAY) + DAYS_FROM_FIRST_DATE;
    Date::from_days_since_min(day as u32)
}

// The second of UTC that begins `year`.
fn new_year(year: i16) -> i64
    requires { IsYear year }
    ensures value { result ≡ first_day year *ℤ pos 86_400 }
    ensures bound { IsBetween (neg_ℤ (pos 400_000_000_000)) (pos 400_000_000_000) result }
{
    i64::from(Date::constrain(year, 1, 1).to_unix_epoch_day()) * DAY
}

// The second of UTC that begins the year after the year of `second`. In the year 9999 it is the
// second after `second`.
fn year_end(second: i64) -> i64
    requires { IsBetween (neg_ℤ (pos 1_000_000)) (pos 8_000_000_000) second }
    ensures year { IsOneYear second result }
    ensures later { second <ℤ result }
    ensures bound { IsBetween (neg_ℤ (pos 400_000_000_000)) (pos 400_000_000_000) result }
{
    let year = date_at(second).year;
    if year >= 9999 {
        return second + 1;
    }
    new_year(year + 1)
}

// The second of UTC of the zone's first transition after `second`. `NEVER` if there is none before
// that.
fn transition_end(zone: jiff_tz::TimeZone<'_>, at: jiff_core::Timestamp, second: i64) -> i64
    requires at { at.nanosecond ≡ nanos_of_seconds second }
    requires bound { IsBetween (neg_ℤ (pos 1_000_000)) (pos 8_000_000_000) second }
    ensures untouched { (k : ℤ) → second <ℤ k → k <ℤ result
        → IsShortOf (next_at zone.entry (nanos_of_seconds second)) (nanos_of_seconds k) }
    ensures later { second <ℤ result }
    ensures bound { result ≤ℤ pos 8_267_961_600 }
{
    let Some(transition) = zone.next_transition(at) else {
        return NEVER;
    };
    let whole = transition.timestamp.floor_second();
    if whole <= second {
        return second + 1;
    }
    lesser(whole, NEVER)
}

// The offset that a clock in `zone` keeps from `second` to the next transition or the end of the
// year, whichever is earlier.
#[inline(never)]
fn steady_up_to_transition(zone: &TimeZone<'_>, second: i64) -> Steady
    requires { IsBetween (neg_ℤ (pos 1_000_000)) (pos 8_000_000_000) second }
    ensures kept { IsKept (zone_clock zone.now) second result.end result.offset.seconds }
    ensures later { second <ℤ result.end }
{
    let at = Timestamp::from_second(second).unwrap();
    let offset = zone.to_offset(at);
    let untouched = transition_end(zone.to_plain(), at.to_plain(), second);
    Steady {
        offset,
        end: lesser(untouched, year_end(second)),
    }
}

// The offset of a zone without rule or table, which has only one. `None` for other zones.
#[inline(always)]
fn only_offset(zone: &TimeZone<'_>) -> Option<Offset>
    ensures { IfSome result
        (λ o. (n end : ℤ) → IsKept (zone_clock zone.now) n end o.seconds) }
{
    match zone.to_plain() {
        jiff_tz::TimeZone::UTC | jiff_tz::TimeZone::Unknown => Some(Offset::UTC),
        jiff_tz::TimeZone::Fixed(offset) => Some(Offset::from_plain(offset)),
        _ => None,
    }
}

// `kept` as a `Steady`, whose numbers may be negative.
#[inline(always)]
fn steady_of(kept: Kept) -> Steady
    ensures offset { result.offset ≡ kept.offset }
    ensures end { result.end ≡ pos kept.end }
{
    Steady {
        offset: kept.offset,
        end: i64::from(kept.end),
    }
}

/// The offset that a clock in `zone` shows at `second`, a second of UTC, and up to where it keeps
/// it.
pub(crate) fn steady_in(zone: &TimeZone<'_>, second: i64) -> Steady
    requires { IsBetween (neg_ℤ (pos 1_000_000)) (pos 8_000_000_000) second }
    ensures kept { IsKept (zone_clock zone.now) second result.end result.offset.seconds }
    ensures later { second <ℤ result.end }
{
    if let Some(offset) = only_offset(zone) {
        return Steady { offset, end: NEVER };
    }
    match kept_by_rule(zone, second) {
        Some(kept) => steady_of(kept),
        None => steady_up_to_transition(zone, second),
    }
}

/// The same as `steady_in`, for a `second` near a transition: first the transitions of its year are
/// worked out.
#[inline(never)]
pub(crate) fn steady_near_transition(zone: &TimeZone<'_>, second: i64) -> Steady
    requires { IsBetween (neg_ℤ (pos 1_000_000)) (pos 8_000_000_000) second }
    ensures kept { IsKept (zone_clock zone.now) second result.end result.offset.seconds }
    ensures later { second <ℤ result.end }
{
    match kept_by_transitions(zone, second) {
        Some(kept) => steady_of(kept),
        None => steady_in(zone, second),
    }
}
