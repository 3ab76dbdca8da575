//! The civil seconds of a set that lie on allowed days.
ghost use Rattle.std.specs.Prelude.{◌≡◌, ℤ, ◌<◌, IfSome};
ghost use Rattle.cron_units.specs.Nearest.{IsNearest};
ghost use Rattle.cron_moments.specs.Civil.{seconds_in_range};
ghost use Rattle.cron_time.specs.Seconds.{is_match};
ghost use Rattle.cron_days.specs.Sets.{on_days};
ghost use Rattle.cron_days.specs.Inner.Reached.{IsReached};

use crate::days::Days;
use crate::edge::edge;
use crate::row::Row;
use cron_moments::civil::SECONDS_PER_DAY;
use cron_seconds::civil_seconds::CivilSeconds;
use cron_units::way::Way;

/// The civil seconds of a set that lie on the days that a rule allows.
#[derive(Clone, Copy, Drop)]
pub struct OnDays<S, D> {
    /// The set.
    pub seconds: S,
    /// The rule.
    pub days: D,
}

/// What a search of [`OnDays`] has learned: what the search of its set has, and a stretch of civil
/// seconds whose days are all allowed.
#[derive(Drop)]
pub struct DaysCursor<C> {
    seconds: C,
    first: u32,
    end: u32,
}

// The nearest civil second on an allowed day, if `known` is the nearest one of any day. Days that
// aren't allowed are passed at once.
fn nearest_on<S: CivilSeconds, D: Days>(
    seconds: &S,
    days: &D,
    way: Way,
    known: Option<u32>,
) -> Option<u32>
    requires bound { IfSome known (λ n. n < seconds_in_range) }
    ensures nearest { (from : ℤ)
        → IsReached way (is_match (S.has seconds.now))
        (is_match (on_days (S.has seconds.now) (D.allows days.now))) from known
        → IsNearest way (is_match (on_days (S.has seconds.now) (D.allows days.now))) from result }
    ensures bound { IfSome result (λ n. n < seconds_in_range) }
{
    let mut next = known;
    while let Some(second) = next {
        let day = second / SECONDS_PER_DAY;
        let allowed = days.nearest_day(way, i64::from(day))?;
        if allowed == day {
            return Some(second);
        }
        next = seconds.nearest(way, edge(way, allowed));
    }
    None
}

impl<S: CivilSeconds, D: Days> CivilSeconds for OnDays<S, D> {
    ghost use Rattle.std.specs.Prelude.{ℕ, ◌/◌, ◌≤◌, true};
    ghost use Rattle.cron_days.specs.Sets.{on_days};

    ghost has = { λ set. on_days (S.has set.seconds) (D.allows set.days) };

    type Cursor = DaysCursor<S::Cursor>;

    ghost knows = { λ set cursor. S.knows set.seconds cursor.seconds
        × ((k : ℕ) → cursor.first ≤ k → k < cursor.end → D.allows set.days (k / 86_400) ≡ true) };

    fn nearest(&self, way: Way, from: i64) -> Option<u32> {
        let known = self.seconds.nearest(way, from);
        nearest_on(&self.seconds, &self.days, way, known)
    }

    fn begin() -> DaysCursor<S::Cursor> {
        DaysCursor {
            seconds: S::begin(),
            first: 0,
            end: 0,
        }
    }

    #[inline(always)]
    fn past(&self, way: Way, second: u32, cursor: &mut DaysCursor<S::Cursor>) -> Option<u32> {
        let next = self.seconds.past(way, second, &mut cursor.seconds)?;
        if cursor.first <= next && next < cursor.end {
            return Some(next);
        }
        let row = self.days.row_of(next / SECONDS_PER_DAY);
        if !row.allowed {
            return nearest_on(&self.seconds, &self.days, way, Some(next));
        }
        cursor.first = row.first * SECONDS_PER_DAY;
        cursor.end = (row.last + 1) * SECONDS_PER_DAY;
        Some(next)
    }

    fn is_clear(&self, first: u32, end: u32) -> bool {
        self.seconds.is_clear(first, end)
    }
}
