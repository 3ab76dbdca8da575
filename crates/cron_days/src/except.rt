//! The civil seconds of one set that another doesn't have.
ghost use Rattle.std.specs.Prelude.{◌≡◌, ℤ, ◌<◌, IfSome, true};
ghost use Rattle.cron_units.specs.Nearest.{IsNearest};
ghost use Rattle.cron_moments.specs.Civil.{seconds_in_range};
ghost use Rattle.cron_time.specs.Search.Inner.Numbers.{beyond};
ghost use Rattle.cron_time.specs.Seconds.{is_match};
ghost use Rattle.cron_days.specs.Sets.{except};
ghost use Rattle.cron_days.specs.Inner.Reached.{IsReached};

use cron_seconds::civil_seconds::CivilSeconds;
use cron_units::way::Way;

/// The civil seconds of one set that another doesn't have. A search asks the second set at each
/// civil second of the first one that it comes to.
#[derive(Clone, Copy, Drop)]
pub struct Except<S, T> {
    /// The set.
    pub seconds: S,
    /// What is left out.
    pub without: T,
}

// Returns true if the set has `second`.
fn has_second<S: CivilSeconds>(set: &S, second: u32) -> bool
    requires { second < seconds_in_range }
    ensures { result ≡ is_match (S.has set.now) second }
{
    match set.nearest(Way::Ahead, i64::from(second)) {
        Some(next) => next == second,
        None => false,
    }
}

// The number next to `second` in direction `way`.
fn beyond(way: Way, second: u32) -> i64
    ensures { result ≡ beyond way second }
{
    match way {
        Way::Ahead => i64::from(second) + 1,
        Way::Back => i64::from(second) - 1,
    }
}

// The nearest civil second of `seconds` that `without` doesn't have, if `known` is the nearest one
// of `seconds`.
fn nearest_except<S: CivilSeconds, T: CivilSeconds>(
    seconds: &S,
    without: &T,
    way: Way,
    known: Option<u32>,
) -> Option<u32>
    requires bound { IfSome known (λ n. n < seconds_in_range) }
    ensures nearest { (from : ℤ)
        → IsReached way (is_match (S.has seconds.now))
        (is_match (except (S.has seconds.now) (T.has without.now))) from known
        → IsNearest way (is_match (except (S.has seconds.now) (T.has without.now))) from result }
    ensures bound { IfSome result (λ n. n < seconds_in_range) }
{
    let mut next = known;
    while let Some(second) = next {
        if !has_second(without, second) {
            return Some(second);
        }
        next = seconds.nearest(way, beyond(way, second));
    }
    None
}

impl<S: CivilSeconds, T: CivilSeconds> CivilSeconds for Except<S, T> {
    ghost use Rattle.cron_days.specs.Sets.{except};

    ghost has = { λ set. except (S.has set.seconds) (T.has set.without) };

    type Cursor = S::Cursor;

    ghost knows = { λ set cursor. S.knows set.seconds cursor };

    fn nearest(&self, way: Way, from: i64) -> Option<u32> {
        let known = self.seconds.nearest(way, from);
        nearest_except(&self.seconds, &self.without, way, known)
    }

    fn begin() -> S::Cursor {
        S::begin()
    }

    fn past(&self, way: Way, second: u32, cursor: &mut S::Cursor) -> Option<u32> {
        let next = self.seconds.past(way, second, cursor)?;
        nearest_except(&self.seconds, &self.without, way, Some(next))
    }

    fn is_clear(&self, first: u32, end: u32) -> bool {
        self.seconds.is_clear(first, end)
    }
}
