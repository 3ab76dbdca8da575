//! `Fire`: a moment or a due fire. The type is the rule at clock changes. A table is what fires: a
//! schedule, or another set of civil seconds.
ghost use Rattle.std.specs.Prelude.{◌≡◌, ◌*ℤ◌, ℤ, pos, List};
ghost use Rattle.jiff.specs.Words.{plain_zone};
ghost use Rattle.jiff_tz.specs.declared.timezone.TimeZone.{TimeZone};
ghost use Rattle.cron_time.specs.Seconds.{Seconds};
ghost use Rattle.cron_seconds.specs.Rules.{IsFirstOf};
ghost use Rattle.cron_fires.specs.Rules.{FiresGoOn, FiresNeverDecrease};

use cron::schedule::Moment;
use cron_dues::fire::DueFire;
use cron_dues::once::Once;
use cron_instants::as_shown::AsShown;
use cron_seconds::civil_seconds::CivilSeconds;
use cron_seconds::rule::Rule;
use jiff::Timestamp;
use jiff::tz::TimeZone;

/// A fire, whose type is the rule: a table has a `Moment` for each time that the clock shows a
/// match, and a `DueFire` for each match.
pub trait Fire: Copy {
    // the instant of a fire, in seconds since 1970-01-01T00:00:00Z
    ghost at: { Self → ℤ };

    // the fires of a set in a zone, in order: the ones after an instant, and the ones that follow a
    // fire
    ghost after: { Seconds → TimeZone → ℤ → List Self };

    ghost past: { Seconds → TimeZone → Self → List Self };

    /// The fire's instant.
    fn instant(&self) -> Timestamp
        ensures { result.nanosecond ≡ at self.now *ℤ pos 1_000_000_000 };

    /// The first fire after the instant `now`, or `None` if there is none.
    fn first_after<T: CivilSeconds>(table: &T, now: Timestamp, zone: &TimeZone<'_>) -> Option<Self>
        ensures { IsFirstOf
            (after (T.has table.now) (plain_zone zone.now) now.nanosecond)
            (past (T.has table.now) (plain_zone zone.now)) result };

    /// The next fire after `fire`, or `None` if there is none. It may share the instant of `fire`.
    fn first_past<T: CivilSeconds>(table: &T, fire: &Self, zone: &TimeZone<'_>) -> Option<Self>
        ensures { IsFirstOf
            (past (T.has table.now) (plain_zone zone.now) fire.now)
            (past (T.has table.now) (plain_zone zone.now)) result };

    /// A law, for a caller's proof: from fire to fire instants never decrease.
    fn never_decrease()
        ensures { FiresNeverDecrease at after past };

    /// A law: if fires are listed from an instant or a fire on, what comes after one of them in the
    /// list are exactly the fires that follow it.
    fn go_on_past()
        ensures { FiresGoOn after past };
}

/// One of the times when the clock shows a match.
impl Fire for Moment {
    ghost use Rattle.cron_moments.specs.Readings.{instant};
    ghost use Rattle.cron_instants.specs.Fires.{fires_after, fires_past};

    ghost at = { instant };

    ghost after = { fires_after };

    ghost past = { fires_past };

    fn instant(&self) -> Timestamp {
        self.timestamp()
    }

    fn first_after<T: CivilSeconds>(
        table: &T,
        now: Timestamp,
        zone: &TimeZone<'_>,
    ) -> Option<Moment> {
        AsShown::first_after(table, now, zone)
    }

    fn first_past<T: CivilSeconds>(
        table: &T,
        fire: &Moment,
        zone: &TimeZone<'_>,
    ) -> Option<Moment> {
        AsShown::first_past(table, fire, zone)
    }

    fn never_decrease() {}

    fn go_on_past() {}
}

/// A match, at the first instant when the clock shows it or a later time.
impl Fire for DueFire {
    ghost use Rattle.cron_dues.specs.Due.{instant};
    ghost use Rattle.cron_dues.specs.Dues.{dues_after, dues_past};

    ghost at = { instant };

    ghost after = { dues_after };

    ghost past = { dues_past };

    fn instant(&self) -> Timestamp {
        self.timestamp()
    }

    fn first_after<T: CivilSeconds>(
        table: &T,
        now: Timestamp,
        zone: &TimeZone<'_>,
    ) -> Option<DueFire> {
        Once::first_after(table, now, zone)
    }

    fn first_past<T: CivilSeconds>(
        table: &T,
        fire: &DueFire,
        zone: &TimeZone<'_>,
    ) -> Option<DueFire> {
        Once::first_past(table, fire, zone)
    }

    fn never_decrease() {}

    fn go_on_past() {}
}
