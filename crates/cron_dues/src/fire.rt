//! A due fire: a civil second that matches, with the instant when it is due by a clock.
ghost use Rattle.jiff_core.specs.Calendar.{IsBetween};
ghost use Rattle.std.specs.Prelude.{◌≡◌, neg_ℤ, pos, ◌*ℤ◌, ◌+ℤ◌, MatchOption};
ghost use Rattle.jiff_core.specs.DateTime.{civil_nanos};
ghost use Rattle.jiff_core.specs.Timestamp.{nanos_of_seconds};
ghost use Rattle.cron_moments.specs.Civil.{civil};
ghost use Rattle.cron_moments.specs.Readings.{reading};
ghost use Rattle.cron_dues.specs.Clock.Due.{CanBeDue, instant, parts};
ghost use Rattle.cron_dues.specs.DueText.{shown};

use cron_moments::civil::{SECONDS, civil_of};
use cron_moments::moment::{Moment, moment_numbered};
use jiff::Timestamp;
use jiff::civil::DateTime;
use jiff::tz::Offset;
use std::marker::Model;

/// A due fire. It has a nominal time, which is the matching civil second, a due instant, and the
/// clock's offset from UTC at that instant. Two fires of one gap share their instant, but have
/// different nominal times.
#[derive(Clone, Copy, Debug, PartialEq, Eq)]
pub struct DueFire {
    second: u32,
    past: u32,
    offset: Offset,
}

impl Model for DueFire {
    ghost use Rattle.cron_dues.specs.Clock.Due.{CanBeDue, Due, parts};

    ghost Value = { Due };

    ghost view = { λ d. record { second = d.second; past = d.past; offset = d.offset } };

    ghost inverse = { λ r. record { second = r.second; past = r.past; offset = r.offset } };

    ghost invariant = { λ d. CanBeDue (parts d.second d.past d.offset) };
}

impl DueFire {
    /// The nominal time: the civil second that matches.
    pub fn nominal(&self) -> DateTime
        ensures { result ≡ civil self.now.second }
    {
        civil_of(self.second)
    }

    /// The due instant.
    pub fn timestamp(&self) -> Timestamp
        ensures { result.nanosecond ≡ instant self.now *ℤ pos 1_000_000_000 }
    {
        Timestamp::from_second(due_second(self)).unwrap()
    }

    /// The clock's offset from UTC at the due instant.
    pub fn offset(&self) -> Offset
        ensures { result ≡ self.now.offset }
    {
        self.offset
    }

    /// The number of seconds from the nominal time to what the clock shows at the due instant. It
    /// is 0 outside of gaps.
    pub fn seconds_past(&self) -> u32
        ensures value { result ≡ self.now.past }
        ensures range { CanBeDue self.now }
    {
        self.past
    }

    /// What the clock shows at the due instant. After the last matches of 2100 this may be in 2101.
    pub fn shown(&self) -> DateTime
        ensures { civil_nanos result ≡ nanos_of_seconds (pos self.now.second +ℤ pos self.now.past) }
    {
        self.offset.to_datetime(self.timestamp())
    }
}

/// The greatest number of seconds from a nominal time to what a clock shows at the due instant:
/// twice the longest offset.
const FURTHEST_PAST: u32 = 187_198;

/// The due fire of the civil second with number `second`. At the due instant the clock is at
/// `offset`, and what it shows is `past` seconds past `second`. `None` if no clock allows that: if
/// `second` is outside 1970 to 2100, or if `past` is more than 187,198.
pub fn fire_of_parts(second: u32, past: u32, offset: Offset) -> Option<DueFire>
    ensures { MatchOption result
        (CanBeDue (parts second past offset) → ⊥)
        (λ fire. (fire ≡ parts second past offset) × CanBeDue fire) }
{
    if i64::from(second) >= SECONDS {
        return None;
    }
    if past > FURTHEST_PAST {
        return None;
    }
    Some(due_fire(second, past, offset))
}

/// A due fire from its parts.
#[inline(always)]
pub(crate) fn due_fire(second: u32, past: u32, offset: Offset) -> DueFire
    requires { CanBeDue (parts second past offset) }
    ensures { result ≡ parts second past offset }
{
    DueFire {
        second,
        past,
        offset,
    }
}

/// The due instant, in seconds since 1970-01-01T00:00:00Z.
#[inline(always)]
pub fn due_second(fire: &DueFire) -> i64
    ensures value { result ≡ instant fire.now }
    ensures bound { IsBetween (neg_ℤ (pos 93_599)) (pos 8_590_028_189) result }
{
    i64::from(fire.second) + i64::from(fire.past) - i64::from(fire.offset.seconds())
}

/// The nominal time, as the number of the civil second that matches.
#[inline(always)]
pub fn nominal_second(fire: &DueFire) -> u32
    ensures { result ≡ fire.now.second }
{
    fire.second
}

/// What the clock shows at the due instant.
pub(crate) fn shown_moment(fire: &DueFire) -> Moment
    ensures { result ≡ shown fire.now }
{
    moment_numbered(fire.second + fire.past, fire.offset)
}

/// The nominal time, at the offset of the due instant.
pub(crate) fn nominal_moment(fire: &DueFire) -> Moment
    ensures { result ≡ reading fire.now.second fire.now.offset }
{
    moment_numbered(fire.second, fire.offset)
}
