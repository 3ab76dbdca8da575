//! Lists of days as stretches of days in a row.
ghost use Rattle.std.specs.Prelude.{◌≡◌, ◌<◌, ◌≤◌, ◌-◌, ◌==◌, ℕ, ◌∷◌, length, slice_index_or, MatchResult, IfOk, All};
ghost use Rattle.std.specs.List.{list_any};
ghost use Rattle.std.specs.List.Sorted.{IsNonDecreasing};
ghost use Rattle.cron_moments.specs.Civil.{days_in_range};
ghost use Rattle.cron_days.specs.Days.{IsRow};
ghost use Rattle.cron_days.specs.Rules.{is_listed};
ghost use Rattle.cron_days.specs.Refusals.{RefusesDates};
ghost use Rattle.cron_days.specs.Inner.Runs.{AreApart, is_in_runs};

use crate::day::{RuleError, number_of};
use crate::row::Row;
use cron_moments::civil::DAYS;
use jiff::civil::Date;
use std::alloc::{AllocError, Global};

/// Days in a row: `first`, and those after it that come before `end`.
#[derive(Clone, Copy)]
pub(crate) struct Run {
    pub(crate) first: u32,
    pub(crate) end: u32,
}

// The numbers of some dates, in the same order.
fn numbers_of(alloc: Global, dates: &[Date]) -> Result<Vec<u32>, RuleError>
    ensures { MatchResult result
        (λ numbers. All (λ n. n < days_in_range) numbers.items
        × ((n : ℕ) → list_any (λ m. m == n) numbers.items ≡ is_listed dates.now n))
        (RefusesDates dates.now) }
{
    let mut numbers = Vec::new(alloc);
    for date in dates {
        let number = number_of(*date)?;
        numbers.push(number)?;
    }
    Ok(numbers)
}

// The days of an ascending list: `first` and `rest`. Days that follow one another are in one
// stretch.
fn runs_from(alloc: Global, first: u32, rest: &[u32]) -> Result<Vec<Run>, AllocError>
    requires sorted { IsNonDecreasing (first ∷ rest.now) }
    requires in_range { All (λ n. n < days_in_range) (first ∷ rest.now) }
    ensures { IfOk result (λ runs. AreApart runs.items
        × ((n : ℕ) → is_in_runs runs.items n ≡ list_any (λ m. m == n) (first ∷ rest.now))) }
{
    let mut runs = Vec::new(alloc);
    let mut last = Run {
        first,
        end: first + 1,
    };
    for day in rest {
        if *day <= last.end {
            last.end = *day + 1;
            continue;
        }
        runs.push(last)?;
        last = Run {
            first: *day,
            end: *day + 1,
        };
    }
    runs.push(last)?;
    Ok(runs)
}

/// The days of some dates.
pub(crate) fn runs_of_dates(alloc: Global, dates: &[Date]) -> Result<Vec<Run>, RuleError>
    ensures { MatchResult result
        (λ runs. AreApart runs.items
        × ((n : ℕ) → is_in_runs runs.items n ≡ is_listed dates.now n))
        (RefusesDates dates.now) }
{
    let mut numbers = numbers_of(alloc, dates)?;
    numbers.sort_unstable();
    match numbers.split_first() {
        Some((first, rest)) => Ok(runs_from(alloc, *first, rest)?),
        None => Ok(Vec::new(alloc)),
    }
}

// The first day past the stretches before `place`, or the first of the range.
fn end_before(runs: &[Run], place: usize) -> u32
    requires { place ≤ length runs.now }
    ensures end { 0 < place
        → result ≡ (slice_index_or runs.now (place - 1) (record { first = 0; end = 0 })).end }
    ensures none { place ≡ 0 → result ≡ 0 }
{
    if place == 0 {
        return 0;
    }
    runs[place - 1].end
}

/// The stretch that `day` lies in, as days that are allowed, or the days between two stretches, as
/// days that aren't.
pub(crate) fn row_among(runs: &[Run], day: u32) -> Row
    requires apart { AreApart runs.now }
    requires in_range { day < days_in_range }
    ensures { IsRow (is_in_runs runs.now) day result }
{
    let place = runs.partition_point(|run| run.end <= day);
    let first = end_before(runs, place);
    if place == runs.len() {
        return Row {
            first,
            last: DAYS - 1,
            allowed: false,
        };
    }
    let run = runs[place];
    if run.first <= day {
        return Row {
            first: run.first,
            last: run.end - 1,
            allowed: true,
        };
    }
    Row {
        first,
        last: run.first - 1,
        allowed: false,
    }
}
