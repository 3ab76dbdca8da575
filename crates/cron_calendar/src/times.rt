//! The times of a plan's fires on a day.
ghost use Rattle.std.specs.Prelude.{◌≡◌, ◌++◌, ◌<◌, ◌≤◌, ℕ, IfOk, MatchOption, OnOk, false, length, map, replicate, take, true};
ghost use Rattle.jiff.specs.Words.{plain_zone};
ghost use Rattle.cron_counting.specs.Counts.{items_on_day};
ghost use Rattle.cron_moments.specs.Civil.{days_in_range, seconds_in_range};
ghost use Rattle.cron_moments.specs.Readings.{readings};
ghost use Rattle.cron_calendar.specs.DayLists.{seconds_on};

use crate::changes::times_of;
use crate::plans::Plan;
use cron_clocks::stretch::Stretch;
use cron_moments::civil::SECONDS_PER_DAY;
use cron_plans::table::Table;
use cron_seconds::civil_seconds::CivilSeconds;
use cron_units::way::Way;
use jiff::tz::TimeZone;
use std::alloc::{AllocError, Allocator};

// How often a clock shows a civil second, numbered from 1970-01-01 00:00:00.
fn readings_of(zone: &TimeZone<'_>, second: u32) -> u32
    requires { second < seconds_in_range }
    ensures { result ≡ length (readings (plain_zone zone.now) second) }
{
    times_of(&Stretch::at(zone, second))
}

// Appends a civil second as many times as `count` says.
fn push_times<A: Allocator>(
    times: &mut Vec<u32, A>,
    second: u32,
    count: u32,
) -> Result<(), AllocError>
    ensures { OnOk result (times.new.items ≡ times.old.items ++ replicate count second) }
{
    for _ in 0..count {
        times.push(second)?;
    }
    Ok(())
}

// The first civil second of a set from `from` on and before `end`.
fn next_before<S: CivilSeconds>(set: &S, from: u32, end: u32) -> Option<u32>
    requires { end ≤ seconds_in_range }
    ensures { MatchOption result
        ((c : ℕ) → from ≤ c → c < end → c < seconds_in_range → S.has set.now c ≡ false)
        (λ n. (from ≤ n) × (n < end) × (S.has set.now n ≡ true)
        × ((c : ℕ) → from ≤ c → c < n → S.has set.now c ≡ false)) }
{
    let second = set.nearest(Way::Ahead, i64::from(from))?;
    if second < end { Some(second) } else { None }
}

// The civil seconds of the first `most` items of a set on a day, numbered from 1970-01-01. A civil
// second that the clock shows twice is there twice.
fn first_on<S: CivilSeconds, A: Allocator>(
    alloc: A,
    set: &S,
    day: u32,
    most: usize,
    zone: &TimeZone<'_>,
) -> Result<Vec<u32, A>, AllocError>
    requires { day < days_in_range }
    ensures { IfOk result (λ times. times.items ≡ take most
        (map (λ r. r.second) (items_on_day (S.has set.now) (plain_zone zone.now) day))) }
{
    let mut times = Vec::new(alloc);
    let mut from = day * SECONDS_PER_DAY;
    let end = from + SECONDS_PER_DAY;
    while times.len() < most {
        let Some(second) = next_before(set, from, end) else {
            break;
        };
        push_times(&mut times, second, readings_of(zone, second))?;
        from = second + 1;
    }
    times.truncate(most);
    Ok(times)
}

/// The civil seconds of the first `most` fires of `plan` on a day, numbered from 1970-01-01, in
/// order.
pub(crate) fn first_times<A: Allocator>(
    alloc: A,
    plan: &Plan<'_>,
    day: u32,
    most: usize,
    zone: &TimeZone<'_>,
) -> Result<Vec<u32, A>, AllocError>
    requires { day < days_in_range }
    ensures { IfOk result (λ times. times.items
        ≡ take most (seconds_on (plain_zone zone.now) day plan.now)) }
{
    let table = Table::of(plan.schedules, &plan.plan);
    if plan.once {
        return first_on(alloc, &table, day, most, &TimeZone::UTC);
    }
    first_on(alloc, &table, day, most, zone)
}
