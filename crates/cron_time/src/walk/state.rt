//! The state of a walk. A walk goes, in a zone, over the readings of the civil seconds that match.
//! A reading is a civil second with an offset at which the zone's clock shows it.
ghost use Rattle.std.specs.Prelude.{◌≡◌, Some};
ghost use Rattle.cron_units.specs.Sets.{Sets};
ghost use Rattle.cron_time.specs.Walk.Inner.Placed.{Knows, answer_of, reading_of, stand_of, stop_of};
ghost use Rattle.cron_time.specs.Walk.Inner.Stand as kept;
ghost use Rattle.cron_moments.specs.Readings.{Reading};
ghost use Rattle.jiff_tz.specs.declared.timezone.TimeZone.{TimeZone};

use crate::search::minute::Minute;
use crate::search::month_days::MonthDays;
use cron_clocks::stretch::Stretch;
use cron_moments::calendar::KnownMonth;
use cron_moments::moment::{Moment, moment_numbered};
use cron_moments::readings::Found;
use cron_units::way::Way;
use jiff::Timestamp;
use jiff::tz::Offset;

/// What a walk has come to: nothing yet, the only reading of a civil second, the earlier or the
/// later one of two, or the end.
#[derive(Clone, Copy)]
pub(crate) enum Stage {
    Start,
    Single,
    Earlier,
    Later,
    Ended,
}

/// The stage of a walk, the readings of its civil second, and the instant that it started from. A
/// field that the stage doesn't need has no meaning. `minute` may be any minute: usually it is the
/// minute of the civil second, and a search from there is short. `days` are the matching days of
/// the month that was looked up last, as far as they are known. `stretch` holds civil seconds that
/// have the same offsets as the one that was looked up last. It may be empty.
#[derive(Clone, Copy)]
pub struct State {
    pub(crate) stage: Stage,
    pub(crate) earlier: Moment,
    pub(crate) later: Moment,
    pub(crate) start: jiff_core::Timestamp,
    pub(crate) minute: Minute,
    pub(crate) days: MonthDays,
    pub(crate) stretch: Stretch,
}

impl State {
    /// The state of a walk that starts at an instant.
    pub fn starting(start: Timestamp) -> State
        ensures stand { stand_of result ≡ kept.Start start.nanosecond }
        ensures known { (s : Sets) (z : TimeZone) → Knows s z result }
    {
        let none = moment_numbered(0, Offset::UTC);
        State {
            stage: Stage::Start,
            earlier: none,
            later: none,
            start: start.to_plain(),
            minute: Minute::epoch(),
            days: MonthDays::unknown(KnownMonth::january_1970()),
            stretch: Stretch::empty(),
        }
    }

    /// Goes to the first of the `found` readings in the direction `way`, or to the end if `found`
    /// is `None`.
    #[inline(always)]
    pub(crate) fn arrive(&mut self, way: Way, found: Option<Found>)
        ensures stand { stand_of self.new ≡ stop_of way found }
        ensures days { self.new.days ≡ self.old.days }
        ensures stretch { self.new.stretch ≡ self.old.stretch }
    {
        let Some(
            Found {
                first: earlier,
                second,
            },
        ) = found
        else {
            self.stage = Stage::Ended;
            return;
        };
        self.earlier = earlier;
        let Some(later) = second else {
            self.stage = Stage::Single;
            return;
        };
        self.later = later;
        self.stage = match way {
            Way::Ahead => Stage::Earlier,
            Way::Back => Stage::Later,
        };
    }

    /// The state at one of the `found` readings: at the later one if `later` is true, else at the
    /// earlier or only one.
    pub(crate) fn stand_at(self, found: Found, later: bool) -> State
        requires { (r : Reading) × (reading_of found later ≡ Some r) }
        ensures stand { stand_of result ≡ kept.At found later }
        ensures days { result.days ≡ self.days }
        ensures stretch { result.stretch ≡ self.stretch }
    {
        let Found {
            first: earlier,
            second,
        } = found;
        let Some(last) = second else {
            return State {
                stage: Stage::Single,
                earlier,
                ..self
            };
        };
        let stage = if later { Stage::Later } else { Stage::Earlier };
        State {
            stage,
            earlier,
            later: last,
            ..self
        }
    }

    /// The reading that the walk has come to, which its last call returned. `None` at the start and
    /// at the end.
    #[inline(always)]
    pub fn answer(&self) -> Option<Moment>
        ensures { result ≡ answer_of (stand_of self.now) }
    {
        match self.stage {
            Stage::Single | Stage::Earlier => Some(self.earlier),
            Stage::Later => Some(self.later),
            Stage::Start | Stage::Ended => None,
        }
    }
}
