//! The nearest civil second in any of several sets. The search needs no reading, and queries no
//! zone.
ghost use Rattle.std.specs.Prelude.{◌≡◌, ℕ, ◌≤◌, ◌<◌, false, IfSome, IsTrue};
ghost use Rattle.cron_units.specs.Nearest.{IsNearest};
ghost use Rattle.cron_moments.specs.Civil.{seconds_in_range};
ghost use Rattle.cron_time.specs.Search.Inner.Numbers.{beyond};
ghost use Rattle.cron_time.specs.Seconds.{is_match};
ghost use Rattle.cron_unions.specs.Nearest.{nearer_second};
ghost use Rattle.cron_unions.specs.Unions.{any_in};

use cron_seconds::civil_seconds::CivilSeconds;
use cron_units::way::Way;

// The nearer of `best` and `other` in direction `way`. If one is `None`, it is the other one.
#[inline(always)]
fn nearer_second(way: Way, best: Option<u32>, other: Option<u32>) -> Option<u32>
    ensures { result ≡ nearer_second way best other }
{
    let Some(second) = best else {
        return other;
    };
    let Some(next) = other else {
        return Some(second);
    };
    let nearer = match way {
        Way::Ahead => next < second,
        Way::Back => second < next,
    };
    if nearer { Some(next) } else { Some(second) }
}

/// The nearest civil second of the range in any of the sets, from `from` on. `Way::Ahead` gives the
/// first one at or after `from`, and `Way::Back` the last one at or before it. `None` exactly if
/// there is none.
pub(crate) fn nearest_of<S: CivilSeconds>(sets: &[S], way: Way, from: i64) -> Option<u32>
    ensures nearest { IsNearest way (is_match (any_in S.has sets.now)) from result }
    ensures bound { IfSome result (λ c. c < seconds_in_range) }
{
    let mut nearest = None;
    for set in sets {
        nearest = nearer_second(way, nearest, set.nearest(way, from));
    }
    nearest
}

/// The nearest civil second past `second`, in direction `way`, in any of the sets. `None` exactly
/// if there is none.
pub(crate) fn nearest_past<S: CivilSeconds>(sets: &[S], way: Way, second: u32) -> Option<u32>
    requires { second < seconds_in_range }
    ensures nearest { IsNearest way (is_match (any_in S.has sets.now)) (beyond way second) result }
    ensures bound { IfSome result (λ c. c < seconds_in_range) }
{
    match way {
        Way::Ahead => nearest_of(sets, way, i64::from(second) + 1),
        Way::Back => nearest_of(sets, way, i64::from(second) - 1),
    }
}

/// Returns true only if it is known, without a search, that none of the sets has a civil second at
/// or after `first` and before `end`.
pub(crate) fn are_clear<S: CivilSeconds>(sets: &[S], first: u32, end: u32) -> bool
    ensures { IsTrue result → (k : ℕ) → first ≤ k → k < end
        → is_match (any_in S.has sets.now) k ≡ false }
{
    for set in sets {
        if !set.is_clear(first, end) {
            return false;
        }
    }
    true
}
