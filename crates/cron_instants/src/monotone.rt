//! Ranges of civil seconds in the same order as their instants. In such a range the next match is
//! the next item: items are readings of matches, in the order of their instants. A mark is a place
//! in that order. A stretch is civil seconds that the zone reads at the same offsets.
ghost use Rattle.std.specs.Prelude.{◌≡◌, ℕ, ◌≤◌, ◌<◌, ℤ, pos, ◌+ℤ◌, ◌≤ℤ◌, ◌<ℤ◌, IfSome};
ghost use Rattle.jiff.specs.Words.{plain_zone};
ghost use Rattle.jiff_core.specs.Calendar.{IsBetween};
ghost use Rattle.jiff_tz.specs.declared.timezone.TimeZone.{TimeZone as Zone};
ghost use Rattle.cron_clocks.specs.Steady.{IsKnown as IsKnownStretch};
ghost use Rattle.cron_moments.specs.Civil.{seconds_in_range};
ghost use Rattle.cron_instants.specs.Monotone.{IsMonotone, IsInOrder, IsKnown, IsNext};
ghost use Rattle.cron_instants.specs.OffsetRange.{IsOffsetRange};

use crate::joined::{join_around, one_offset};
use crate::mark::Mark;
use crate::nearest::nearest_item;
use crate::offset_range::{APART, OffsetRange, offset_range_of};
use cron_clocks::stretch::Stretch;
use cron_moments::civil::SECONDS;
use cron_moments::moment::{Moment, civil_second, moment_numbered};
use cron_seconds::civil_seconds::CivilSeconds;
use cron_units::way::Way;
use jiff::tz::{Offset, TimeZone};

/// What is known of a civil second that is read once, at `offset`, if all before it are read
/// earlier. Each civil second from it on and before `end` is then in order: it is read once, at
/// `offset`, those before it are read earlier, and those after it later. `end` may be before the
/// civil second itself.
#[derive(Clone, Copy)]
pub struct Monotone {
    pub offset: Offset,
    pub end: u32,
}

// A range of civil seconds that ends `width` seconds before `end`, or at 0 if that is negative.
fn monotone_up_to(offset: Offset, end: i64, width: i64) -> Monotone
    requires width { IsBetween (pos 0) (pos 4_294_967_295) width }
    requires end { IsBetween (pos 0) (pos seconds_in_range) end }
    ensures offset { result.offset ≡ offset }
    ensures end { (k : ℕ) → k < result.end → (pos k +ℤ width) <ℤ end }
{
    if end < width {
        return Monotone { offset, end: 0 };
    }
    Monotone {
        offset,
        end: (end - width) as u32,
    }
}

// What is known of `second` by its stretch: up to where civil seconds are in order, if those before
// `second` are read earlier. If the stretch ends at least `APART` seconds before the edge of
// `offset_range`, its end is the answer. `None` if nothing is known.
fn monotone_in(stretch: &Stretch, second: u32, offset_range: OffsetRange) -> Option<Monotone>
    requires low { stretch.now.first ≤ second }
    requires high { second < stretch.now.end }
    requires range { second < seconds_in_range }
    requires order { offset_range.least ≤ℤ offset_range.greatest }
    ensures { IfSome result
        (λ monotone. (z : Zone) → IsOffsetRange z offset_range → IsKnownStretch z stretch.now
        → IsMonotone z second monotone) }
{
    let offset = one_offset(stretch)?;
    let at = i64::from(second);
    let width = offset_range.width();
    let end = i64::from(stretch.end).min(SECONDS);
    if end + APART <= offset_range.edge {
        return Some(monotone_up_to(offset, end, 0));
    }
    if at < offset_range.edge {
        return Some(monotone_up_to(offset, end.min(offset_range.edge), width));
    }
    let past = at - width;
    if past < i64::from(stretch.first) || past < offset_range.edge {
        return None;
    }
    Some(monotone_up_to(offset, end, width))
}

/// What is known of `second`, by its stretch or by the stretches joined to it. If possible, the
/// answer says that `second` itself is in order, and not only the civil seconds before it. `None`
/// if nothing is known.
pub(crate) fn monotone_around(
    zone: &TimeZone<'_>,
    stretch: &Stretch,
    second: u32,
) -> Option<Monotone>
    requires low { stretch.now.first ≤ second }
    requires high { second < stretch.now.end }
    requires range { second < seconds_in_range }
    requires known { IsKnownStretch (plain_zone zone.now) stretch.now }
    ensures { IfSome result (λ monotone. IsMonotone (plain_zone zone.now) second monotone) }
{
    let offset_range = offset_range_of(zone);
    if let Some(monotone) = monotone_in(stretch, second, offset_range) {
        if second < monotone.end {
            return Some(monotone);
        }
    }
    monotone_in(&join_around(zone, stretch, second), second, offset_range)
}

// What is known of the civil second of `item`. `None` if nothing is known, or if it is known at
// another offset than the item's.
fn monotone_at(zone: &TimeZone<'_>, item: &Moment) -> Option<Monotone>
    requires { item.now.second < seconds_in_range }
    ensures monotone { IfSome result
        (λ monotone. IsMonotone (plain_zone zone.now) item.now.second monotone) }
    ensures offset { IfSome result (λ monotone. monotone.offset.seconds ≡ item.now.offset.seconds) }
{
    let second = civil_second(item);
    let stretch = Stretch::at(zone, second);
    let monotone = monotone_around(zone, &stretch, second)?;
    if monotone.offset.seconds() != item.offset().seconds() {
        return None;
    }
    Some(monotone)
}

/// What is known of `second` if it is in order: it is read once, what the clock shows before it is
/// read earlier, and what the clock shows after it later. `None` says nothing, and is returned near
/// gaps and folds.
#[inline(never)]
pub fn monotone_past(zone: &TimeZone<'_>, second: u32) -> Option<Monotone>
    requires { second < seconds_in_range }
    ensures { IfSome result
        (λ monotone. IsMonotone (plain_zone zone.now) second monotone × (second < monotone.end)) }
{
    let stretch = Stretch::at(zone, second);
    let monotone = monotone_around(zone, &stretch, second)?;
    if second >= monotone.end {
        return None;
    }
    Some(monotone)
}

// The first item beyond `mark`, found by a search, and what is known after that item. Both are
// `None` if there is no item.
#[inline(never)]
fn search_next<S: CivilSeconds>(
    set: &S,
    zone: &TimeZone<'_>,
    mark: Mark,
) -> (Option<Moment>, Option<Monotone>)
    ensures { IsNext (S.has set.now) (plain_zone zone.now) mark.instant mark.second result.0 result.1 }
{
    let Some(item) = nearest_item(set, zone, Way::Ahead, mark, &Stretch::empty()) else {
        return (None, None);
    };
    let monotone = monotone_at(zone, &item);
    (Some(item), monotone)
}

/// The first item beyond `mark`, and what is known after that item. Both are `None` if there is no
/// item. `known` is what is known after `mark`, and `cursor` is what the last search of the set
/// knew.
#[inline(always)]
pub(crate) fn next_item<S: CivilSeconds>(
    set: &S,
    zone: &TimeZone<'_>,
    mark: Mark,
    known: Option<Monotone>,
    cursor: &mut S::Cursor,
) -> (Option<Moment>, Option<Monotone>)
    requires known { IsKnown (S.has set.now) (plain_zone zone.now) mark.instant mark.second known }
    requires knows { S.knows set.now cursor.old }
    ensures next { IsNext (S.has set.now)
        (plain_zone zone.now)
        mark.instant
        mark.second
        result.0
        result.1 }
    ensures knows { S.knows set.now cursor.new }
{
    let Some(monotone) = known else {
        return search_next(set, zone, mark);
    };
    let Some(next) = set.past(Way::Ahead, mark.second, cursor) else {
        return (None, None);
    };
    if next < monotone.end {
        return (Some(moment_numbered(next, monotone.offset)), Some(monotone));
    }
    match monotone_past(zone, next) {
        Some(there) => (Some(moment_numbered(next, there.offset)), Some(there)),
        None => search_next(set, zone, mark),
    }
}
