//! How far a clock has come: the greatest civil second that it has shown up to an instant.
ghost use Rattle.std.specs.Prelude.{◌≡◌, neg_ℤ, pos};
ghost use Rattle.jiff_core.specs.Calendar.{IsBetween};
ghost use Rattle.std.specs.Int.{int_div_euclid};
ghost use Rattle.cron_dues.specs.Reached.{IsGreatestBy, IsReachedBy, LeadsOn};

use crate::clock::Clock;
use crate::numbers::greater;
use crate::steady::DueSpan;
use cron_moments::civil::{FURTHEST_OFFSET, SECONDS};
use jiff::Timestamp;

/// How far a clock has come by an instant.
#[derive(Clone, Copy)]
pub(crate) struct Reach {
    /// A civil second of the range is due exactly if its number is at most this one.
    pub second: i64,
    /// The span where later civil seconds may be due, if it is known.
    pub span: Option<DueSpan>,
}

// How far a clock has come by `second`, a second of UTC: the greatest civil second that it has
// shown, and the span where it keeps its present offset.
#[inline(always)]
fn greatest_by<C: Clock>(clock: &C, second: i64) -> Reach
    requires { IsBetween (neg_ℤ (pos 200_000)) (pos 5_000_000_000) second }
    ensures greatest { IsGreatestBy (C.offsets clock.now) second result.second }
    ensures bound { IsBetween (neg_ℤ (pos 400_000)) (pos 6_000_000_000) result.second }
    ensures span { LeadsOn (C.offsets clock.now) result.second result.span }
{
    let mut from = second - 2 * FURTHEST_OFFSET;
    let mut greatest = second - FURTHEST_OFFSET - 1;
    let mut steady = clock.steady_from(from);
    while steady.end <= second {
        greatest = greater(greatest, steady.shown(steady.end - 1));
        from = steady.end;
        steady = clock.steady_past(from);
    }
    Reach {
        second: greater(greatest, steady.shown(second)),
        span: Some(DueSpan { from, steady }),
    }
}

/// How far a clock has come by an instant.
#[inline(always)]
pub(crate) fn reach_by<C: Clock>(clock: &C, now: Timestamp) -> Reach
    ensures reached { IsReachedBy (C.offsets clock.now)
        (int_div_euclid now.nanosecond (pos 1_000_000_000)) result.second }
    ensures bound { IsBetween (neg_ℤ (pos 400_000)) (pos 6_000_000_000) result.second }
    ensures span { LeadsOn (C.offsets clock.now) result.second result.span }
{
    let second = now.to_plain().floor_second();
    if second < -100_000 {
        return Reach {
            second: -1,
            span: None,
        };
    }
    if second > SECONDS + 100_000 {
        return Reach {
            second: SECONDS,
            span: None,
        };
    }
    greatest_by(clock, second)
}

/// The number up to which civil seconds are due: one of the range is due by `now` exactly if its
/// number is at most this one.
pub fn reached_by<C: Clock>(clock: &C, now: Timestamp) -> i64
    ensures reached { IsReachedBy (C.offsets clock.now)
        (int_div_euclid now.nanosecond (pos 1_000_000_000)) result }
    ensures bound { IsBetween (neg_ℤ (pos 400_000)) (pos 6_000_000_000) result }
{
    reach_by(clock, now).second
}
