//! Times of day that a set has on one of several days.
ghost use Rattle.std.specs.Prelude.{◌≡◌, ◌≤◌, ◌<◌, ◌+◌, ◌-◌, pos, IfSome};
ghost use Rattle.cron_units.specs.Nearest.{IsNearest};
ghost use Rattle.cron_moments.specs.Civil.{days_in_range};
ghost use Rattle.cron_unions.specs.Nearest.{nearer_second};
ghost use Rattle.cron_days.specs.Inner.Times.{first_time, has_time, has_time_on_any};

use cron_moments::civil::SECONDS_PER_DAY;
use cron_seconds::civil_seconds::CivilSeconds;
use cron_units::way::Way;

/// The time of day that a search in direction `way` reaches first.
pub(crate) fn first_time(way: Way) -> u32
    ensures time { result ≡ first_time way }
    ensures bound { result < 86_400 }
{
    match way {
        Way::Ahead => 0,
        Way::Back => SECONDS_PER_DAY - 1,
    }
}

// The nearest time of day from `time` on that the set has on `day`.
fn time_on<S: CivilSeconds>(set: &S, way: Way, day: u32, time: u32) -> Option<u32>
    requires day { day < days_in_range }
    requires time { time < 86_400 }
    ensures { IsNearest way (has_time (S.has set.now) day) (pos time) result }
{
    let second = set.nearest(way, i64::from(day * SECONDS_PER_DAY + time))?;
    if second / SECONDS_PER_DAY != day {
        return None;
    }
    Some(second % SECONDS_PER_DAY)
}

// The nearer of two times of day, or the only one.
fn nearer(way: Way, best: Option<u32>, other: Option<u32>) -> Option<u32>
    ensures { result ≡ nearer_second way best other }
{
    let Some(time) = best else {
        return other;
    };
    let Some(next) = other else {
        return Some(time);
    };
    let is_nearer = match way {
        Way::Ahead => next < time,
        Way::Back => time < next,
    };
    if is_nearer { Some(next) } else { Some(time) }
}

/// The nearest time of day from `time` on that the set has on one of the days from `first` to
/// `last`.
pub(crate) fn time_on_any<S: CivilSeconds>(
    set: &S,
    way: Way,
    first: u32,
    last: u32,
    time: u32,
) -> Option<u32>
    requires days { (first ≤ last) × (last < days_in_range) }
    requires time { time < 86_400 }
    ensures nearest { IsNearest way
        (has_time_on_any (S.has set.now) first (last + 1 - first)) (pos time) result }
    ensures bound { IfSome result (λ t. t < 86_400) }
{
    let mut best = None;
    for day in first..last + 1 {
        best = nearer(way, best, time_on(set, way, day, time));
    }
    best
}
