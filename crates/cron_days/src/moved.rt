//! The civil seconds of a set, moved to allowed days.
ghost use Rattle.std.specs.Prelude.{◌≡◌, ◌≤◌, ◌<◌, pos, true, IfSome};
ghost use Rattle.cron_units.specs.Nearest.{IsNearest};
ghost use Rattle.cron_moments.specs.Civil.{days_in_range, seconds_in_range};
ghost use Rattle.cron_time.specs.Search.Inner.Numbers.{beyond_day};
ghost use Rattle.cron_time.specs.Seconds.{is_match};
ghost use Rattle.cron_days.specs.Days.{is_day};
ghost use Rattle.cron_days.specs.Moved.{moved};
ghost use Rattle.cron_days.specs.Inner.Times.{first_time, has_time, past_days};

use crate::days::Days;
use crate::sources::{Sources, sources_of};
use crate::times::{first_time, time_on_any};
use cron_moments::civil::{SECONDS, SECONDS_PER_DAY};
use cron_seconds::civil_seconds::CivilSeconds;
use cron_units::way::Way;

/// The civil seconds of a set, each moved to the nearest day that a rule allows, at the same time of
/// day. One on an allowed day stays, and two that meet are one. Where no such day is in the range,
/// it is lost.
#[derive(Clone, Copy, Drop)]
pub struct Moved<S, D> {
    /// The set.
    pub seconds: S,
    /// The rule.
    pub days: D,
    /// The direction: to the days after, or to those before.
    pub way: Way,
}

// The civil second that a search from `from` on begins at, if the range has one.
fn start_of(way: Way, from: i64) -> Option<u32>
    ensures nearest { IsNearest way (is_match (λ c. true)) from result }
    ensures bound { IfSome result (λ c. c < seconds_in_range) }
{
    match way {
        Way::Ahead if from >= SECONDS => None,
        Way::Ahead => Some(from.max(0) as u32),
        Way::Back if from < 0 => None,
        Way::Back => Some(from.min(SECONDS - 1) as u32),
    }
}

// Where the civil seconds past some days start, in direction `way`.
fn past_days(way: Way, days: Sources) -> i64
    requires { (days.first < days_in_range) × (days.last < days_in_range) }
    ensures { result ≡ past_days way days.first days.last }
{
    match way {
        Way::Ahead => i64::from(days.last + 1) * i64::from(SECONDS_PER_DAY),
        Way::Back => i64::from(days.first) * i64::from(SECONDS_PER_DAY) - 1,
    }
}

// The time of day at which a search that starts at `time` of the day `own` enters the day `day`.
fn entry_of(way: Way, own: u32, time: u32, day: u32) -> u32
    requires { time < 86_400 }
    ensures own { day ≡ own → result ≡ time }
    ensures other { (day ≡ own → ⊥) → result ≡ first_time way }
    ensures bound { result < 86_400 }
{
    if day == own { time } else { first_time(way) }
}

impl<S: CivilSeconds, D: Days> Moved<S, D> {
    // The nearest time of day from `time` on at which a civil second is on the allowed day `target`.
    fn time_at(&self, way: Way, target: u32, time: u32) -> Option<u32>
        requires allowed { is_day (D.allows self.now.days) target ≡ true }
        requires time { time < 86_400 }
        ensures nearest { IsNearest way
            (has_time (moved self.now.way (D.allows self.now.days) (S.has self.now.seconds)) target)
            (pos time)
            result }
        ensures bound { IfSome result (λ t. t < 86_400) }
    {
        let sources = sources_of(&self.days, self.way, target);
        time_on_any(&self.seconds, way, sources.first, sources.last, time)
    }

    // The nearest civil second on the days past the allowed day `target`.
    fn past_day(&self, way: Way, target: u32) -> Option<u32>
        requires { is_day (D.allows self.now.days) target ≡ true }
        ensures nearest { IsNearest way
            (is_match (moved self.now.way (D.allows self.now.days) (S.has self.now.seconds)))
            (beyond_day way target)
            result }
        ensures bound { IfSome result (λ c. c < seconds_in_range) }
    {
        let sources = sources_of(&self.days, self.way, target);
        let next = self.seconds.nearest(way, past_days(way, sources))?;
        let day = self
            .days
            .nearest_day(self.way, i64::from(next / SECONDS_PER_DAY))?;
        let time = self.time_at(way, day, first_time(way))?;
        Some(day * SECONDS_PER_DAY + time)
    }

    // The nearest civil second from `start` on.
    fn nearest_from(&self, way: Way, start: u32) -> Option<u32>
        requires { start < seconds_in_range }
        ensures nearest { IsNearest way
            (is_match (moved self.now.way (D.allows self.now.days) (S.has self.now.seconds)))
            (pos start)
            result }
        ensures bound { IfSome result (λ c. c < seconds_in_range) }
    {
        let own = start / SECONDS_PER_DAY;
        let day = self.days.nearest_day(way, i64::from(own))?;
        let time = entry_of(way, own, start % SECONDS_PER_DAY, day);
        match self.time_at(way, day, time) {
            Some(time) => Some(day * SECONDS_PER_DAY + time),
            None => self.past_day(way, day),
        }
    }
}

impl<S: CivilSeconds, D: Days> CivilSeconds for Moved<S, D> {
    ghost use Rattle.cron_days.specs.Moved.{moved};

    ghost has = { λ set. moved set.way (D.allows set.days) (S.has set.seconds) };

    type Cursor = ();

    ghost knows = { λ set cursor. Unit {0} };

    fn nearest(&self, way: Way, from: i64) -> Option<u32> {
        let start = start_of(way, from)?;
        self.nearest_from(way, start)
    }

    fn begin() {}

    fn past(&self, way: Way, second: u32, _cursor: &mut ()) -> Option<u32> {
        match way {
            Way::Ahead => self.nearest(way, i64::from(second) + 1),
            Way::Back => self.nearest(way, i64::from(second) - 1),
        }
    }
}
