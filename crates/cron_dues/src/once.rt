//! The rule that a set fires once at each of its civil seconds.
ghost use Rattle.std.specs.Prelude.{◌≡◌};

use crate::ahead::{Known, next_due};
use crate::clock::Clock;
use crate::dues;
use crate::fire::{DueFire, due_second, nominal_second};
use crate::reach::reached_by;
use cron_moments::civil::SECONDS;
use cron_seconds::civil_seconds::CivilSeconds;
use cron_seconds::rule::Rule;
use jiff::Timestamp;
use std::marker::PhantomData;

/// A set fires once at each of its civil seconds: when the clock first shows it or a later one.
#[derive(Clone, Copy)]
pub struct Once<C> {
    clock: PhantomData<C>,
}

/// The place of a run: the number after the nominal second that it passed last, and what is known
/// of civil seconds from that number on.
#[derive(Clone, Copy)]
pub struct DueStand {
    from: i64,
    known: Known,
}

impl<C: Clock> Rule for Once<C> {
    ghost use Rattle.cron_dues.specs.Clock.Due.{instant};
    ghost use Rattle.cron_dues.specs.Clock.Dues.{dues, is_past};
    ghost use Rattle.cron_dues.specs.Known.{IsKnown};
    ghost use Rattle.cron_dues.specs.Left.{left_from};

    type Clock = C;

    type Fire = DueFire;

    type Stand = DueStand;

    ghost fires = { λ s clock. dues s (C.offsets clock) };

    ghost at = { instant };

    ghost is_past = { is_past };

    ghost left = { λ s clock stand. left_from s (C.offsets clock) stand.from };

    ghost stands = { λ s clock stand. IsKnown s (C.offsets clock) stand.from stand.known };

    fn instant_of(fire: &DueFire) -> i64 {
        due_second(fire)
    }

    fn first_after<S: CivilSeconds>(set: &S, now: Timestamp, clock: &C) -> Option<DueFire> {
        dues::first_after(set, now, clock)
    }

    fn first_past<S: CivilSeconds>(set: &S, fire: &DueFire, clock: &C) -> Option<DueFire> {
        dues::first_past(set, fire, clock)
    }

    fn last_by<S: CivilSeconds>(set: &S, now: Timestamp, clock: &C) -> Option<DueFire> {
        dues::last_by(set, now, clock)
    }

    fn last_before<S: CivilSeconds>(set: &S, fire: &DueFire, clock: &C) -> Option<DueFire> {
        dues::last_before(set, fire, clock)
    }

    fn stand_after(start: Timestamp, clock: &C) -> DueStand {
        DueStand {
            from: reached_by(clock, start) + 1,
            known: Known::nothing(),
        }
    }

    fn stand_past(fire: &DueFire, _clock: &C) -> DueStand {
        DueStand {
            from: i64::from(nominal_second(fire)) + 1,
            known: Known::nothing(),
        }
    }

    fn stand_at_the_end(_clock: &C) -> DueStand {
        DueStand {
            from: SECONDS,
            known: Known::nothing(),
        }
    }

    #[inline(always)]
    fn next<S: CivilSeconds>(
        set: &S,
        clock: &C,
        stand: &mut DueStand,
        cursor: &mut S::Cursor,
    ) -> Option<DueFire> {
        let Some(fire) = next_due(set, clock, stand.from, &mut stand.known, cursor) else {
            stand.from = SECONDS;
            stand.known = Known::nothing();
            return None;
        };
        stand.from = i64::from(nominal_second(&fire)) + 1;
        Some(fire)
    }

    fn in_order() {}
}
