//! Moments: the items that walks over schedules and runs over fires yield.
ghost use Rattle.std.specs.Prelude.{◌≡◌, ◌*ℤ◌, pos, neg_ℤ};
ghost use Rattle.jiff_core.specs.Calendar.{IsBetween};
ghost use Rattle.cron_moments.specs.Civil.{civil};
ghost use Rattle.cron_moments.specs.Readings.{instant, reading};

use crate::civil::civil_of;
use jiff::Timestamp;
use jiff::civil::DateTime;
use jiff::tz::Offset;
use std::marker::Model;

/// A civil second with an offset: what a clock shows, and how far it is ahead of UTC.
#[derive(Clone, Copy, Debug, PartialEq, Eq)]
pub struct Moment {
    second: u32,
    offset: Offset,
}

impl Model for Moment {
    ghost use Rattle.cron_moments.specs.Readings.{Reading};

    ghost Value = { Reading };

    ghost view = { λ m. record { second = m.second; offset = m.offset } };

    ghost inverse = { λ r. record { second = r.second; offset = r.offset } };
}

impl Moment {
    /// The civil datetime that the clock shows.
    pub fn datetime(&self) -> DateTime
        ensures { result ≡ civil self.now.second }
    {
        civil_of(self.second)
    }

    /// The instant, which is the civil second less the offset.
    pub fn timestamp(&self) -> Timestamp
        ensures { result.nanosecond ≡ instant self.now *ℤ pos 1_000_000_000 }
    {
        Timestamp::from_second(instant_of(self)).unwrap()
    }

    /// How far the clock is ahead of UTC.
    pub fn offset(&self) -> Offset
        ensures { result ≡ self.now.offset }
    {
        self.offset
    }
}

/// The civil second with the number `second`, as a clock at `offset` shows it. Numbers count from
/// 1970-01-01 00:00:00.
pub fn moment_numbered(second: u32, offset: Offset) -> Moment
    ensures { result ≡ reading second offset }
{
    Moment { second, offset }
}

/// The instant of a moment, in seconds since 1970-01-01T00:00:00Z.
#[inline(always)]
pub fn instant_of(moment: &Moment) -> i64
    ensures value { result ≡ instant moment.now }
    ensures bound { IsBetween (neg_ℤ (pos 93_599)) (pos 4_295_060_894) result }
{
    moment.second as i64 - moment.offset.seconds() as i64
}

/// The number of a moment's civil second, counted from 1970-01-01 00:00:00.
pub fn civil_second(moment: &Moment) -> u32
    ensures { result ≡ moment.now.second }
{
    moment.second
}
