//! The rule that a set fires each time that a clock shows one of its civil seconds.
ghost use Rattle.std.specs.Prelude.{◌≡◌};
ghost use Rattle.jiff.specs.Words.{plain_zone};
ghost use Rattle.jiff.specs.declared.tz.timezone.TimeZone.{TimeZone as Clock};
ghost use Rattle.cron_moments.specs.Readings.{instant};
ghost use Rattle.cron_time.specs.Seconds.{Seconds};
ghost use Rattle.cron_seconds.specs.Rules.{AreInOrder, IsOrder};
ghost use Rattle.cron_instants.specs.Fires.{fires};
ghost use Rattle.cron_instants.specs.Left.{left_beyond};
ghost use Rattle.cron_instants.specs.Order.{is_earlier};
ghost use Rattle.cron_instants.specs.declared.as_shown.ShownStand.{ShownStand as Stand};

use crate::instants;
use crate::mark::Mark;
use crate::monotone::{Monotone, next_item};
use cron_moments::moment::{self, Moment};
use cron_seconds::civil_seconds::CivilSeconds;
use cron_seconds::rule::Rule;
use jiff::Timestamp;
use jiff::tz::TimeZone;
use std::marker::PhantomData;

/// A set fires each time that the clock of a zone shows one of its civil seconds: twice where a
/// fold repeats it, and never where a gap skips it.
#[derive(Clone, Copy)]
pub struct AsShown<Z> {
    zone: PhantomData<Z>,
}

/// The place of a run in the order of fires. `monotone` says up to where civil seconds after it are
/// known to be in the order of their instants.
#[derive(Clone, Copy)]
pub struct ShownStand {
    mark: Mark,
    monotone: Option<Monotone>,
}

impl<'z> Rule for AsShown<TimeZone<'z>> {
    ghost use Rattle.jiff.specs.Words.{plain_zone};
    ghost use Rattle.cron_moments.specs.Readings.{instant};
    ghost use Rattle.cron_instants.specs.Fires.{fires};
    ghost use Rattle.cron_instants.specs.Left.{left_beyond};
    ghost use Rattle.cron_instants.specs.Monotone.{IsKnown};
    ghost use Rattle.cron_instants.specs.Order.{is_earlier};

    type Clock = TimeZone<'z>;

    type Fire = Moment;

    type Stand = ShownStand;

    ghost fires = { λ s zone. fires s (plain_zone zone) };

    ghost at = { instant };

    ghost is_past = { is_earlier };

    ghost left = { λ s zone stand. left_beyond s (plain_zone zone)
        stand.mark.instant stand.mark.second };

    ghost stands = { λ s zone stand. IsKnown s (plain_zone zone)
        stand.mark.instant stand.mark.second stand.monotone };

    fn instant_of(fire: &Moment) -> i64
        ensures { result ≡ instant fire.now }
    {
        moment::instant_of(fire)
    }

    fn first_after<S: CivilSeconds>(
        set: &S,
        now: Timestamp,
        clock: &TimeZone<'z>,
    ) -> Option<Moment> {
        instants::first_after(set, now, clock)
    }

    fn first_past<S: CivilSeconds>(set: &S, fire: &Moment, clock: &TimeZone<'z>) -> Option<Moment> {
        instants::first_past(set, fire, clock)
    }

    fn last_by<S: CivilSeconds>(set: &S, now: Timestamp, clock: &TimeZone<'z>) -> Option<Moment> {
        instants::last_by(set, now, clock)
    }

    fn last_before<S: CivilSeconds>(
        set: &S,
        fire: &Moment,
        clock: &TimeZone<'z>,
    ) -> Option<Moment> {
        instants::last_before(set, fire, clock)
    }

    fn stand_after(start: Timestamp, _clock: &TimeZone<'z>) -> ShownStand {
        ShownStand {
            mark: Mark::behind(start),
            monotone: None,
        }
    }

    fn stand_past(fire: &Moment, _clock: &TimeZone<'z>) -> ShownStand {
        ShownStand {
            mark: Mark::of(fire),
            monotone: None,
        }
    }

    fn stand_at_the_end(_clock: &TimeZone<'z>) -> ShownStand {
        ShownStand {
            mark: Mark::end(),
            monotone: None,
        }
    }

    #[inline(always)]
    fn next<S: CivilSeconds>(
        set: &S,
        clock: &TimeZone<'z>,
        stand: &mut ShownStand,
        cursor: &mut S::Cursor,
    ) -> Option<Moment> {
        let (next, monotone) = next_item(set, clock, stand.mark, stand.monotone, cursor);
        stand.monotone = monotone;
        let Some(fire) = next else {
            stand.mark = Mark::end();
            return None;
        };
        stand.mark = Mark::of(&fire);
        Some(fire)
    }

    fn in_order()
        ensures order { IsOrder is_earlier }
        ensures fires { (s : Seconds) (clock : Clock)
            → AreInOrder instant is_earlier (fires s (plain_zone clock)) }
        ensures left { (s : Seconds) (clock : Clock) (stand : Stand)
            → AreInOrder instant is_earlier
            (left_beyond s (plain_zone clock) stand.mark.instant stand.mark.second) }
    {}
}
