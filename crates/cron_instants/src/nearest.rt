//! The nearest item beyond a mark, ahead or back. An item is a reading of a civil second of the
//! set, and a mark a place in the order of items. A stretch is civil seconds that the zone reads at
//! the same offsets. The search passes stretch after stretch and keeps the best item so far.
ghost use Rattle.std.specs.Prelude.{◌≡◌, ◌≤◌, ◌<◌, IfSome, IsTrue, Some};
ghost use Rattle.jiff.specs.Words.{plain_zone};
ghost use Rattle.cron_clocks.specs.Steady.{IsKnown, IsSteady};
ghost use Rattle.cron_moments.specs.Civil.{seconds_in_range};
ghost use Rattle.cron_moments.specs.Readings.{Reading};
ghost use Rattle.cron_instants.specs.Beyond.{IsBest, IsBettered, IsBeyond, IsEntered, IsGoneOn, IsMatchAt, IsMatchIn, IsNoBetter, IsNotPast, IsSought, IsStart, entry_of, left_to_pass};

use crate::item::nearer;
use crate::mark::Mark;
use cron_clocks::stretch::Stretch;
use cron_moments::civil::{FURTHEST_OFFSET, SECONDS};
use cron_moments::moment::{Moment, instant_of, moment_numbered};
use cron_seconds::civil_seconds::CivilSeconds;
use cron_units::way::Way;
use jiff::tz::{Offset, TimeZone};

// The first civil second in direction `way` whose items can be beyond `mark`. `None` if there is no
// such civil second.
fn entrance(way: Way, mark: Mark) -> Option<u32>
    ensures { IsEntered way mark.instant mark.second result }
{
    match way {
        Way::Ahead => {
            let from = mark.instant - FURTHEST_OFFSET;
            if from >= SECONDS {
                return None;
            }
            Some(from.max(0) as u32)
        }
        Way::Back => {
            let from = mark.instant + FURTHEST_OFFSET;
            if from < 0 {
                return None;
            }
            Some(from.min(SECONDS - 1) as u32)
        }
    }
}

// The first civil second in direction `way` that is beyond `mark` if a clock shows it at `offset`.
// It may be outside of the range.
#[inline(always)]
fn entry(way: Way, mark: Mark, offset: Offset) -> i64
    ensures { result ≡ entry_of way mark.instant mark.second offset.seconds }
{
    let shown = mark.instant + offset.seconds() as i64;
    match way {
        Way::Ahead => {
            if (mark.second as i64) < shown {
                shown
            } else {
                shown + 1
            }
        }
        Way::Back => {
            if shown < (mark.second as i64) {
                shown
            } else {
                shown - 1
            }
        }
    }
}

// The number where a search from `from` starts within the stretch. `None` if the search doesn't
// come into the stretch.
#[inline(always)]
fn start_in(stretch: &Stretch, way: Way, from: i64) -> Option<i64>
    requires { stretch.now.first < stretch.now.end }
    ensures { IsStart way stretch.now.first stretch.now.end from result }
{
    match way {
        Way::Ahead => {
            if from >= stretch.end as i64 {
                return None;
            }
            Some(from.max(stretch.first as i64))
        }
        Way::Back => {
            if from < (stretch.first as i64) {
                return None;
            }
            let last = stretch.end as i64 - 1;
            if from < last { Some(from) } else { Some(last) }
        }
    }
}

// The nearest item beyond `mark` that the stretch has at `offset`, or `None` if it has none.
fn item_at<S: CivilSeconds>(
    set: &S,
    stretch: &Stretch,
    way: Way,
    mark: Mark,
    offset: Offset,
) -> Option<Moment>
    requires some { stretch.now.first < stretch.now.end }
    requires high { stretch.now.end ≤ seconds_in_range }
    ensures { IsBest way
        (IsMatchAt way (S.has set.now) mark.instant mark.second stretch.now.first stretch.now.end offset)
        result }
{
    let Some(from) = start_in(stretch, way, entry(way, mark, offset)) else {
        return None;
    };
    let Some(second) = set.nearest(way, from) else {
        return None;
    };
    if second < stretch.first {
        return None;
    }
    if second >= stretch.end {
        return None;
    }
    Some(moment_numbered(second, offset))
}

// Returns true only if no civil second of the stretch, read at `offset`, is nearer than `best`.
#[inline(always)]
fn is_too_late(stretch: &Stretch, way: Way, offset: Offset, best: &Option<Moment>) -> bool
    ensures { IsTrue result → (r : Reading) → stretch.now.first ≤ r.second
        → r.second < stretch.now.end → r.offset ≡ offset → IsNoBetter way best.now r }
{
    let Some(item) = *best else {
        return false;
    };
    let shown = instant_of(&item) + i64::from(offset.seconds());
    match way {
        Way::Ahead => shown < i64::from(stretch.first),
        Way::Back => shown >= i64::from(stretch.end),
    }
}

// The nearest of `best` and the items beyond `mark` that the stretch has at `offset`.
fn best_at<S: CivilSeconds>(
    set: &S,
    stretch: &Stretch,
    way: Way,
    mark: Mark,
    offset: Offset,
    best: &Option<Moment>,
) -> Option<Moment>
    requires some { stretch.now.first < stretch.now.end }
    requires high { stretch.now.end ≤ seconds_in_range }
    ensures { IsBettered way
        (IsMatchAt way (S.has set.now) mark.instant mark.second stretch.now.first stretch.now.end offset)
        best.now
        result }
{
    if is_too_late(stretch, way, offset, best) {
        return *best;
    }
    nearer(way, best, item_at(set, stretch, way, mark, offset))
}

// The nearest of `best` and the items beyond `mark` that the stretch has at any offset.
fn best_in<S: CivilSeconds>(
    set: &S,
    stretch: &Stretch,
    way: Way,
    mark: Mark,
    best: &Option<Moment>,
) -> Option<Moment>
    requires some { stretch.now.first < stretch.now.end }
    requires high { stretch.now.end ≤ seconds_in_range }
    ensures { IsBettered way
        (IsMatchIn way (S.has set.now) mark.instant mark.second stretch.now)
        best.now
        result }
{
    let Some(earlier) = stretch.earlier else {
        return *best;
    };
    let first = best_at(set, stretch, way, mark, earlier, best);
    let Some(later) = stretch.later else {
        return first;
    };
    best_at(set, stretch, way, mark, later, &first)
}

// The civil second past the stretch where the search goes on. `None` if no item there can be nearer
// than `best`. If `best` is `Some`, the next stretch is entered without a search for a match, since
// it rarely has a nearer item.
fn next_past<S: CivilSeconds>(
    set: &S,
    stretch: &Stretch,
    way: Way,
    best: &Option<Moment>,
) -> Option<u32>
    requires some { stretch.now.first < stretch.now.end }
    requires high { stretch.now.end ≤ seconds_in_range }
    requires best { IfSome best.now
        (λ b. IsNotPast way stretch.now.first stretch.now.end b.second) }
    ensures { IsGoneOn way (S.has set.now) stretch.now.first stretch.now.end best.now result }
{
    let edge = match way {
        Way::Ahead => {
            if i64::from(stretch.end) >= SECONDS {
                return None;
            }
            stretch.end
        }
        Way::Back => stretch.first.checked_sub(1)?,
    };
    let Some(item) = *best else {
        return set.nearest(way, edge as i64);
    };
    let gap = match way {
        Way::Ahead => edge as i64 - instant_of(&item),
        Way::Back => instant_of(&item) - edge as i64,
    };
    if gap >= FURTHEST_OFFSET {
        None
    } else {
        Some(edge)
    }
}

/// The stretch around `second`. It isn't looked up if `second` lies in `known`.
pub(crate) fn stretch_around(zone: &TimeZone<'_>, known: &Stretch, second: u32) -> Stretch
    requires range { second < seconds_in_range }
    requires known { IsKnown (plain_zone zone.now) known.now }
    ensures steady { IsSteady (plain_zone zone.now) result }
    ensures low { result.first ≤ second }
    ensures high { second < result.end }
{
    if known.has(second) && i64::from(known.end) <= SECONDS {
        return *known;
    }
    Stretch::at(zone, second)
}

// Passes the stretch around `second`. `best` becomes the nearest of `best` and the stretch's items
// beyond `mark`. Returns the civil second where the search goes on, or `None` if it has ended.
fn pass<S: CivilSeconds>(
    set: &S,
    zone: &TimeZone<'_>,
    way: Way,
    mark: Mark,
    known: &Stretch,
    second: u32,
    best: &mut Option<Moment>,
) -> Option<u32>
    requires known { IsKnown (plain_zone zone.now) known.now }
    requires sought { IsSought way (S.has set.now)
        (plain_zone zone.now)
        mark.instant
        mark.second
        (Some second)
        best.old }
    ensures sought { IsSought way (S.has set.now)
        (plain_zone zone.now)
        mark.instant
        mark.second
        result
        best.new }
    ensures less { left_to_pass way result < left_to_pass way (Some second) }
{
    let stretch = stretch_around(zone, known, second);
    *best = best_in(set, &stretch, way, mark, best);
    next_past(set, &stretch, way, best)
}

/// The nearest item beyond `mark` in direction `way`, or `None` if there is none. The stretch
/// `known` isn't looked up again.
pub(crate) fn nearest_item<S: CivilSeconds>(
    set: &S,
    zone: &TimeZone<'_>,
    way: Way,
    mark: Mark,
    known: &Stretch,
) -> Option<Moment>
    requires { IsKnown (plain_zone zone.now) known.now }
    ensures { IsBest way
        (IsBeyond way (S.has set.now) (plain_zone zone.now) mark.instant mark.second)
        result }
{
    let mut best = None;
    let mut next = entrance(way, mark);
    while let Some(second) = next {
        next = pass(set, zone, way, mark, known, second, &mut best);
    }
    best
}
