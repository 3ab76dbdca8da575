//! Clocks: zones, and whatever else has an offset from UTC.
ghost use Rattle.std.specs.Prelude.{neg_ℤ, pos, ◌<ℤ◌};
ghost use Rattle.jiff_core.specs.Calendar.{IsBetween};
ghost use Rattle.cron_dues.specs.Clock.Due as due;
ghost use Rattle.cron_dues.specs.Steady.{IsKept};

use crate::steady::{Steady, steady_in, steady_near_transition};
use jiff::tz::TimeZone;

/// A clock. Contracts see its offset from UTC at each whole second since 1970-01-01T00:00:00Z.
pub trait Clock {
    /// The clock's offset at each second of UTC.
    ghost offsets: { Self → due.Clock };

    /// The clock's offset at `second`, a second of UTC, and an end before which the clock keeps it.
    /// At the end the offset may change, or stay the same.
    fn steady_from(&self, second: i64) -> Steady
        requires { IsBetween (neg_ℤ (pos 1_000_000)) (pos 8_000_000_000) second }
        ensures kept { IsKept (offsets self.now) second result.end result.offset.seconds }
        ensures later { second <ℤ result.end };

    /// The same as `steady_from`, where `second` is the end of the period that was returned before.
    /// A transition may be there.
    fn steady_past(&self, second: i64) -> Steady
        requires { IsBetween (neg_ℤ (pos 1_000_000)) (pos 8_000_000_000) second }
        ensures kept { IsKept (offsets self.now) second result.end result.offset.seconds }
        ensures later { second <ℤ result.end }
    {
        self.steady_from(second)
    }
}

impl<'z> Clock for TimeZone<'z> {
    ghost use Rattle.cron_dues.specs.Clock.Due.{zone_clock};

    ghost offsets = { zone_clock };

    #[inline(always)]
    fn steady_from(&self, second: i64) -> Steady {
        steady_in(self, second)
    }

    #[inline(always)]
    fn steady_past(&self, second: i64) -> Steady {
        steady_near_transition(self, second)
    }
}
