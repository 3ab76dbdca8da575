//! Walks over the sets of a schedule.

ghost use Rattle.std.specs.Prelude.{◌≡◌, ◌≤◌, false, length, filter, reverse, max, slice_get, IfOk};
ghost use Rattle.std.specs.declared.ops.Bound.TheVariants.{Included};
ghost use Rattle.std.specs.List.{reduce};
ghost use Rattle.cron.specs.Words.{is_within};

use cron::Schedule;
use cron::time_unit::{Ordinal, TimeUnitSpec};
use std::alloc::{AllocError, Global};
use std::ops::Bound;

/// The number of years of the schedule: a walk over them has as many members as `count` returns.
pub fn year_count(schedule: &Schedule) -> usize
    ensures { result ≡ length schedule.now.sets.years }
{
    let counted = schedule.years().iter().count();
    prove_eq!(counted, schedule.years().count() as usize);
    counted
}

/// The number of the schedule's hours from `first` to `last`, both included. `first` is at most
/// `last`.
pub fn count_hours(schedule: &Schedule, first: Ordinal, last: Ordinal) -> usize
    requires { first ≤ last }
    ensures { result
        ≡ length (filter (is_within (Included first) (Included last)) schedule.now.sets.hours) }
{
    schedule
        .hours()
        .range((Bound::Included(first), Bound::Included(last)))
        .count()
}

/// The schedule's hours, the greatest first.
pub fn descending_hours(alloc: Global, schedule: &Schedule) -> Result<Vec<Ordinal>, AllocError>
    ensures { IfOk result (λ hours. hours.items ≡ reverse schedule.now.sets.hours) }
{
    schedule.hours().iter().rev().collect(alloc)
}

/// The schedule's minutes from `first` to `last`, both included. `first` is at most `last`.
pub fn minutes_between(
    alloc: Global,
    schedule: &Schedule,
    first: Ordinal,
    last: Ordinal,
) -> Result<Vec<Ordinal>, AllocError>
    requires { first ≤ last }
    ensures { IfOk result (λ minutes. minutes.items
        ≡ filter (is_within (Included first) (Included last)) schedule.now.sets.minutes) }
{
    schedule
        .minutes()
        .range((Bound::Included(first), Bound::Included(last)))
        .collect(alloc)
}

/// The schedule's months from June to August, the last one first.
pub fn summer_months(alloc: Global, schedule: &Schedule) -> Result<Vec<Ordinal>, AllocError>
    ensures { IfOk result (λ months. months.items
        ≡ reverse (filter (is_within (Included 6) (Included 8)) schedule.now.sets.months)) }
{
    schedule
        .months()
        .range((Bound::Included(6), Bound::Included(8)))
        .rev()
        .collect(alloc)
}

/// The schedule's first month from June to September, or `None` if there is none.
pub fn some_warm_month(schedule: &Schedule) -> Option<Ordinal>
    ensures { result
        ≡ slice_get (filter (is_within (Included 6) (Included 9)) schedule.now.sets.months) 0 }
{
    schedule
        .months()
        .range((Bound::Included(6), Bound::Included(9)))
        .next()
}

/// The schedule's greatest month from `first` to `last`, both included, or `None` exactly if it has
/// none there. `first` is at most `last`.
pub fn greatest_month(schedule: &Schedule, first: Ordinal, last: Ordinal) -> Option<Ordinal>
    requires { first ≤ last }
    ensures { result ≡ reduce max
        (filter (is_within (Included first) (Included last)) schedule.now.sets.months) }
{
    let mut greatest = None;
    for month in schedule
        .months()
        .range((Bound::Included(first), Bound::Included(last)))
    {
        greatest = Some(match greatest {
            Some(found) => month.max(found),
            None => month,
        });
    }
    greatest
}

/// Whether the schedule has a thirteenth month, which is always false.
pub fn has_thirteenth_month(schedule: &Schedule) -> bool
    ensures { result ≡ false }
{
    let months = schedule.months();
    // the contract of `iter` says that no member is 13
    let _members = months.iter();
    months.includes(13)
}
