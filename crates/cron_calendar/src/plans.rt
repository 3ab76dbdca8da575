//! What is planned, and how many fires it has on each day. Days are numbered from 1970-01-01.
ghost use Rattle.std.specs.Prelude.{◌≡◌, ◌+◌, ◌*◌, ◌≤◌, ℕ, List, IfOk, length, map, replicate, slice_index};
ghost use Rattle.std.specs.List.{flat_map, range_with_len};
ghost use Rattle.jiff.specs.Words.{plain_zone};
ghost use Rattle.cron_time.specs.Seconds.{Seconds};
ghost use Rattle.cron_unions.specs.Unions.{any_of};
ghost use Rattle.jiff_tz.specs.declared.timezone.TimeZone.{TimeZone as Zone};
ghost use Rattle.cron_moments.specs.Civil.{days_in_range};
ghost use Rattle.cron_calendar.specs.Plans.{counts_of, has_free_day, hour_counts_of, matches_of, shade_at, shades_day, shades_of, sums_with, totals};

use cron_counting::counts::{fires_by_day, fires_by_hour};
use cron_counting::walk::{items_by_day, items_by_hour};
use cron_plans::plan::Plan as Rules;
use cron_plans::table::Table;
use cron_seconds::civil_seconds::CivilSeconds;
use cron_units::fields::ScheduleFields;
use jiff::tz::TimeZone;
use std::alloc::{AllocError, Global};

/// What is planned: a union of schedules, what is left out of it, and its rule at clock changes.
#[derive(Clone, Copy)]
pub struct Plan<'a> {
    /// The plan's name on pages.
    pub name: &'a [u8],
    pub schedules: &'a [ScheduleFields],
    /// What is left out of the fires, and where they are moved.
    pub plan: Option<Rules<'a>>,
    /// Whether each match fires once, even where the clock skips or repeats it. If not, it fires
    /// each time that the clock shows it.
    pub once: bool,
}

// Parts of days whose items are counted.
trait Parts {
    // how many items of a set each part of some days has
    ghost counts: { Seconds → Zone → ℕ → ℕ → List ℕ };

    // The number of items of the union of `schedules` in each part of `days` days from day `first`
    // on.
    fn of_union(
        alloc: Global,
        schedules: &[ScheduleFields],
        first: u32,
        days: u32,
        zone: &TimeZone<'_>,
    ) -> Result<Vec<u32>, AllocError>
        requires { first + days ≤ days_in_range }
        ensures { IfOk result (λ found. found.items
            ≡ counts (any_of schedules.now) (plain_zone zone.now) first days) };

    // The same of any set, by a walk from each item to the next.
    fn of_set<S: CivilSeconds>(
        alloc: Global,
        set: &S,
        first: u32,
        days: u32,
        zone: &TimeZone<'_>,
    ) -> Result<Vec<u32>, AllocError>
        requires { first + days ≤ days_in_range }
        ensures { IfOk result (λ found. found.items
            ≡ counts (S.has set.now) (plain_zone zone.now) first days) };
}

// Whole days.
struct WholeDays;

// The 24 hours of each day.
struct Hours;

impl Parts for WholeDays {
    ghost use Rattle.cron_counting.specs.Counts.{counts_by_day};

    ghost counts = { counts_by_day };

    fn of_union(
        alloc: Global,
        schedules: &[ScheduleFields],
        first: u32,
        days: u32,
        zone: &TimeZone<'_>,
    ) -> Result<Vec<u32>, AllocError> {
        fires_by_day(alloc, schedules, first, days, zone)
    }

    fn of_set<S: CivilSeconds>(
        alloc: Global,
        set: &S,
        first: u32,
        days: u32,
        zone: &TimeZone<'_>,
    ) -> Result<Vec<u32>, AllocError> {
        items_by_day(alloc, set, first, days, zone)
    }
}

impl Parts for Hours {
    ghost use Rattle.std.specs.Prelude.{◌*◌};
    ghost use Rattle.cron_counting.specs.Counts.{counts_by_hour};

    ghost counts = { λ s z first days. counts_by_hour s z (first * 24) (days * 24) };

    fn of_union(
        alloc: Global,
        schedules: &[ScheduleFields],
        first: u32,
        days: u32,
        zone: &TimeZone<'_>,
    ) -> Result<Vec<u32>, AllocError> {
        fires_by_hour(alloc, schedules, first, days, zone)
    }

    fn of_set<S: CivilSeconds>(
        alloc: Global,
        set: &S,
        first: u32,
        days: u32,
        zone: &TimeZone<'_>,
    ) -> Result<Vec<u32>, AllocError> {
        items_by_hour(alloc, set, first, days, zone)
    }
}

// The number of items of `plan` in each part of `days` days from day `first` on. Only what `Rules`
// leave is counted one by one.
fn count_in<P: Parts>(
    alloc: Global,
    plan: &Plan<'_>,
    first: u32,
    days: u32,
    zone: &TimeZone<'_>,
) -> Result<Vec<u32>, AllocError>
    requires { first + days ≤ days_in_range }
    ensures { IfOk result (λ found. found.items
        ≡ P.counts (matches_of plan.now) (plain_zone zone.now) first days) }
{
    match plan.plan {
        None => P::of_union(alloc, plan.schedules, first, days, zone),
        Some(_) => {
            let table = Table::of(plan.schedules, &plan.plan);
            P::of_set(alloc, &table, first, days, zone)
        }
    }
}

/// The number of fires of `plan` on each of `days` days from day `first` on, counted from
/// 1970-01-01. A match that fires once counts for its own civil day, as in UTC.
pub fn counts_of(
    alloc: Global,
    plan: &Plan<'_>,
    first: u32,
    days: u32,
    zone: &TimeZone<'_>,
) -> Result<Vec<u32>, AllocError>
    requires { first + days ≤ days_in_range }
    ensures { IfOk result (λ counts. counts.items
        ≡ counts_of (plain_zone zone.now) first days plan.now) }
{
    if plan.once {
        return count_in::<WholeDays>(alloc, plan, first, days, &TimeZone::UTC);
    }
    count_in::<WholeDays>(alloc, plan, first, days, zone)
}

// The number of fires of `plan` in each hour of `days` days from day `first` on, 24 hours a day. A
// match that fires once counts for its own civil hour, as in UTC.
fn hours_of(
    alloc: Global,
    plan: &Plan<'_>,
    first: u32,
    days: u32,
    zone: &TimeZone<'_>,
) -> Result<Vec<u32>, AllocError>
    requires { first + days ≤ days_in_range }
    ensures { IfOk result (λ counts. counts.items
        ≡ hour_counts_of (plain_zone zone.now) first days plan.now) }
{
    if plan.once {
        return count_in::<Hours>(alloc, plan, first, days, &TimeZone::UTC);
    }
    count_in::<Hours>(alloc, plan, first, days, zone)
}

// The number at `place`, or 0 if there is none.
pub(crate) fn number_at(counts: &[u32], place: usize) -> u32
    ensures { result ≡ slice_index counts.now place }
{
    match counts.get(place) {
        Some(count) => *count,
        None => 0,
    }
}

// The sums of the numbers of `counts` and `others` at each place, at most `u32::MAX` each.
fn sums_with(alloc: Global, counts: &[u32], others: &[u32]) -> Result<Vec<u32>, AllocError>
    ensures { IfOk result (λ sums. sums.items ≡ sums_with counts.now others.now) }
{
    let mut sums = Vec::new(alloc);
    for place in 0..counts.len() {
        sums.push(number_at(counts, place).saturating_add(number_at(others, place)))?;
    }
    Ok(sums)
}

// `count` zeros.
fn zeros(alloc: Global, count: u32) -> Result<Vec<u32>, AllocError>
    ensures { IfOk result (λ counts. counts.items ≡ replicate count 0) }
{
    vec![in alloc; 0; count as usize]
}

/// The number of fires of all plans together on each of `days` days from day `first` on, counted
/// from 1970-01-01. A sum is at most `u32::MAX`.
pub fn totals(
    alloc: Global,
    plans: &[Plan<'_>],
    first: u32,
    days: u32,
    zone: &TimeZone<'_>,
) -> Result<Vec<u32>, AllocError>
    requires { first + days ≤ days_in_range }
    ensures { IfOk result (λ counts. counts.items
        ≡ totals (counts_of (plain_zone zone.now) first days) days plans.now) }
{
    let mut counts = zeros(alloc, days)?;
    for plan in plans {
        let more = counts_of(alloc, plan, first, days, zone)?;
        counts = sums_with(alloc, counts.as_slice(), more.as_slice())?;
    }
    Ok(counts)
}

/// The number of fires of all plans together in each hour of `days` days from day `first` on, 24
/// hours a day. A sum is at most `u32::MAX`.
pub fn hour_totals(
    alloc: Global,
    plans: &[Plan<'_>],
    first: u32,
    days: u32,
    zone: &TimeZone<'_>,
) -> Result<Vec<u32>, AllocError>
    requires { first + days ≤ days_in_range }
    ensures { IfOk result (λ counts. counts.items
        ≡ totals (hour_counts_of (plain_zone zone.now) first days) (days * 24) plans.now) }
{
    let mut counts = zeros(alloc, days * 24)?;
    for plan in plans {
        let more = hours_of(alloc, plan, first, days, zone)?;
        counts = sums_with(alloc, counts.as_slice(), more.as_slice())?;
    }
    Ok(counts)
}

// Whether there is a day without any fires.
fn has_free_day(counts: &[u32]) -> bool
    ensures { result ≡ has_free_day counts.now }
{
    counts.iter().any(|count| *count == 0)
}

// Whether a plan with these numbers of fires fires on the day at `place`, but not on each day.
fn shades_day(counts: &[u32], place: usize) -> bool
    ensures { result ≡ shades_day place counts.now }
{
    number_at(counts, place) > 0 && has_free_day(counts)
}

// How many plans fire on the day at `place`, but not on each day. `each` has the numbers of fires
// of each plan.
fn shade_at(each: &[Vec<u32>], place: usize) -> u32
    ensures { result ≡ shade_at (map (λ counts. counts.items) each.now) place }
{
    let mut shade = 0u32;
    for counts in each {
        if shades_day(counts.as_slice(), place) {
            shade = shade.saturating_add(1);
        }
    }
    shade
}

// For each of `days` days how many plans fire on it, but not on each day.
fn shades_by_day(alloc: Global, each: &[Vec<u32>], days: u32) -> Result<Vec<u32>, AllocError>
    ensures { IfOk result (λ shades. shades.items
        ≡ map (shade_at (map (λ counts. counts.items) each.now)) (range_with_len 0 days)) }
{
    let mut shades = Vec::new(alloc);
    for place in 0..days {
        shades.push(shade_at(each, place as usize))?;
    }
    Ok(shades)
}

// The numbers of fires of all plans, one plan after another.
fn joined_counts(alloc: Global, each: &[Vec<u32>]) -> Result<Vec<u32>, AllocError>
    ensures { IfOk result (λ joined. joined.items
        ≡ flat_map (λ counts. counts.items) each.now) }
{
    let mut joined = Vec::new(alloc);
    for counts in each {
        joined.extend_from_slice(counts.as_slice())?;
    }
    Ok(joined)
}

// The shades of one plan: its numbers of fires.
fn shades_of_one(alloc: Global, each: &[Vec<u32>]) -> Result<Vec<u32>, AllocError>
    requires { length each.now ≡ 1 }
    ensures { IfOk result (λ shades. (days : ℕ)
        → shades.items ≡ shades_of days (map (λ counts. counts.items) each.now)) }
{
    let shades = joined_counts(alloc, each)?;
    Ok(shades)
}

/// The numbers by which the days of a year are shaded. Of one plan these are its fires, else how
/// many plans fire on the day but not on each day. `each` has the numbers of fires of each plan.
pub(crate) fn shades(alloc: Global, each: &[Vec<u32>], days: u32) -> Result<Vec<u32>, AllocError>
    ensures { IfOk result (λ shades. shades.items
        ≡ shades_of days (map (λ counts. counts.items) each.now)) }
{
    match each {
        [_] => shades_of_one(alloc, each),
        several => shades_by_day(alloc, several, days),
    }
}
