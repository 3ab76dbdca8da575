//! Lists of fires by either rule: those after an instant, each past the one before it, and those
//! between two instants.

use crate::{dues, fires};
use anyhow::Result;
use cron::schedule::Moment;
use cron_fires::{AsShown, CivilSeconds, DueFire, Once, Rule, Run, missed, missed_dues};
use cron_test_rows::Row;
use jiff::Timestamp;
use jiff::tz::TimeZone;
use std::alloc::{AllocError, Global};

/// A rule at clock changes whose fires the rows list.
pub(crate) trait Listed: Rule {
    /// Adds to the row's answer what the row has of a fire.
    fn add(row: &mut Row<'_>, fire: &Option<Self::Fire>) -> Result<(), AllocError>;

    /// The fires of `table` after `last` and at or before `now`, as a list.
    fn missed<T: CivilSeconds>(
        alloc: Global,
        table: &T,
        last: Timestamp,
        now: Timestamp,
        clock: &Self::Clock,
    ) -> Result<Vec<Self::Fire>, AllocError>;
}

impl<'z> Listed for AsShown<TimeZone<'z>> {
    fn add(row: &mut Row<'_>, fire: &Option<Moment>) -> Result<(), AllocError> {
        fires::add(row, fire)
    }

    fn missed<T: CivilSeconds>(
        alloc: Global,
        table: &T,
        last: Timestamp,
        now: Timestamp,
        clock: &TimeZone<'z>,
    ) -> Result<Vec<Moment>, AllocError> {
        missed(alloc, table, last, now, clock)
    }
}

impl<'z> Listed for Once<TimeZone<'z>> {
    fn add(row: &mut Row<'_>, fire: &Option<DueFire>) -> Result<(), AllocError> {
        dues::add(row, fire)
    }

    fn missed<T: CivilSeconds>(
        alloc: Global,
        table: &T,
        last: Timestamp,
        now: Timestamp,
        clock: &TimeZone<'z>,
    ) -> Result<Vec<DueFire>, AllocError> {
        missed_dues(alloc, table, last, now, clock)
    }
}

/// Compares as many fires after `start` as the row has: by one call for each, and by a run.
pub(crate) fn ask_after<T: CivilSeconds, R: Listed>(
    row: &mut Row<'_>,
    table: &T,
    clock: &R::Clock,
    start: Timestamp,
) -> Result<()> {
    let count = row.wanted().split(", ").count();
    let mut next = R::first_after(table, start, clock);
    for _ in 0..count {
        R::add(row, &next)?;
        next = match &next {
            Some(fire) => R::first_past(table, fire, clock),
            None => None,
        };
    }
    row.check("first_past")?;
    let mut run = Run::<&T, R>::after(table, start, clock);
    for _ in 0..count {
        R::add(row, &run.next())?;
    }
    row.check("Run::after")
}

/// Compares the last fire at or before `end` with the row's.
pub(crate) fn ask_by<T: CivilSeconds, R: Listed>(
    row: &mut Row<'_>,
    table: &T,
    clock: &R::Clock,
    end: Timestamp,
) -> Result<()> {
    R::add(row, &R::last_by(table, end, clock))?;
    row.check("last_by")
}

/// Compares the fires after `last` and at or before `now`: of a run, as a list, and those past the
/// first of them.
pub(crate) fn ask_between<T: CivilSeconds, R: Listed>(
    row: &mut Row<'_>,
    table: &T,
    clock: &R::Clock,
    last: Timestamp,
    now: Timestamp,
) -> Result<()> {
    let mut first = None;
    for fire in Run::<&T, R>::between(table, last, now, clock) {
        first = first.or(Some(fire));
        R::add(row, &Some(fire))?;
    }
    row.check("Run::between")?;
    for fire in R::missed(row.alloc(), table, last, now, clock)? {
        R::add(row, &Some(fire))?;
    }
    row.check("missed")?;
    if let Some(first) = first {
        R::add(row, &Some(first))?;
        for fire in Run::<&T, R>::past_by(table, &first, now, clock) {
            R::add(row, &Some(fire))?;
        }
    }
    row.check("Run::past_by")
}
