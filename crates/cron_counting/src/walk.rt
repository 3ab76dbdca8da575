//! The number of items of any set of civil seconds, by a walk from each of them to the next.
ghost use Rattle.std.specs.Prelude.{◌≡◌, ◌+◌, ◌*◌, ◌<◌, ◌≤◌, pos, IfOk, IfSome, MatchOption, Some, length};
ghost use Rattle.jiff.specs.Words.{plain_zone};
ghost use Rattle.cron_clocks.specs.Steady.{IsKnown};
ghost use Rattle.cron_units.specs.Nearest.{IsNearest};
ghost use Rattle.cron_units.specs.declared.way.Way.TheVariants.{Ahead};
ghost use Rattle.cron_moments.specs.Civil.{days_in_range, seconds_in_range};
ghost use Rattle.cron_time.specs.Seconds.{is_match};
ghost use Rattle.cron_counting.specs.Counts.{counts_by_day, counts_by_hour, items_in};
ghost use Rattle.cron_counting.specs.Inner.Parts.{counts_by};

use crate::day::{move_to, readings_of};
use crate::span::HOUR;
use cron_clocks::stretch::Stretch;
use cron_moments::civil::SECONDS_PER_DAY;
use cron_seconds::civil_seconds::CivilSeconds;
use cron_units::way::Way;
use jiff::tz::TimeZone;
use std::alloc::{AllocError, Global};

// The number `next`, if it is before `end`.
fn only_before(next: Option<u32>, end: u32) -> Option<u32>
    ensures { MatchOption result
        (IfSome next (λ n. end ≤ n)) (λ n. (next ≡ Some n) × (n < end)) }
{
    let second = next?;
    if second < end { Some(second) } else { None }
}

// The number of items in `size` civil seconds from `first` on. Before, `next` is the first civil
// second of the set from `first` on, and afterwards the first one past these.
fn count_part<S: CivilSeconds>(
    set: &S,
    first: u32,
    size: u32,
    zone: &TimeZone<'_>,
    stretch: &mut Stretch,
    next: &mut Option<u32>,
) -> u32
    requires size { size ≤ 86_400 }
    requires end { first + size ≤ seconds_in_range }
    requires known { IsKnown (plain_zone zone.now) stretch.old }
    requires next { IsNearest Ahead (is_match (S.has set.now)) (pos first) next.old }
    ensures value { result
        ≡ length (items_in (S.has set.now) (plain_zone zone.now) first (first + size)) }
    ensures known { IsKnown (plain_zone zone.now) stretch.new }
    ensures next { IsNearest Ahead (is_match (S.has set.now)) (pos (first + size)) next.new }
{
    let end = first + size;
    let mut count = 0;
    'seconds: while let Some(second) = only_before(*next, end) {
        move_to(stretch, second, zone);
        count += readings_of(stretch);
        *next = set.nearest(Way::Ahead, i64::from(second) + 1);
    }
    count
}

// The number of items in each of `parts` parts of `size` civil seconds. `first` is the number of
// the first part.
fn count_parts<S: CivilSeconds>(
    alloc: Global,
    set: &S,
    size: u32,
    first: u32,
    parts: u32,
    zone: &TimeZone<'_>,
) -> Result<Vec<u32>, AllocError>
    requires size { (0 < size) × (size ≤ 86_400) }
    requires range { (first + parts) * size ≤ seconds_in_range }
    ensures { IfOk result (λ counts. counts.items
        ≡ counts_by size (S.has set.now) (plain_zone zone.now) first parts) }
{
    let mut counts = Vec::new(alloc);
    let mut stretch = Stretch::empty();
    let mut next = set.nearest(Way::Ahead, i64::from(first * size));
    for part in first..first + parts {
        let count = count_part(set, part * size, size, zone, &mut stretch, &mut next);
        counts.push(count)?;
    }
    Ok(counts)
}

/// The number of items of `set` on each of `days` civil days in `zone`, counted as in
/// `counts::fires_by_day`. It searches once for each item.
pub fn items_by_day<S: CivilSeconds>(
    alloc: Global,
    set: &S,
    first: u32,
    days: u32,
    zone: &TimeZone<'_>,
) -> Result<Vec<u32>, AllocError>
    requires { first + days ≤ days_in_range }
    ensures { IfOk result (λ counts. counts.items
        ≡ counts_by_day (S.has set.now) (plain_zone zone.now) first days) }
{
    count_parts(alloc, set, SECONDS_PER_DAY, first, days, zone)
}

/// The number of items of `set` in each civil hour of `days` days from day `first` on, counted as
/// in `items_by_day`. Each day has 24 hours.
pub fn items_by_hour<S: CivilSeconds>(
    alloc: Global,
    set: &S,
    first: u32,
    days: u32,
    zone: &TimeZone<'_>,
) -> Result<Vec<u32>, AllocError>
    requires { first + days ≤ days_in_range }
    ensures { IfOk result (λ counts. counts.items
        ≡ counts_by_hour (S.has set.now) (plain_zone zone.now) (first * 24) (days * 24)) }
{
    count_parts(alloc, set, HOUR, first * 24, days * 24, zone)
}
