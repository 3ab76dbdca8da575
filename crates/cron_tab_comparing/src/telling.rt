//! The report on the entries of two crontabs.
ghost use Rattle.std.specs.Prelude.{◌≡◌, ◌++◌, [], OnOk, map};
ghost use Rattle.cron_tab_comparing.specs.Changes.{TellsDifference, TellsOfOld, TellsOld, new_row, new_rows};
ghost use Rattle.cron_tab_comparing.specs.Entries.{other_view, view};
ghost use Rattle.cron_replies.specs.Inner.Telling.{AppendsTold};

use crate::entries::Known;
use crate::keys::other_of;
use crate::rows::{Change, push_difference, push_entry};
use cron_comparing::difference::first_difference;
use cron_replies::form::Form;
use std::alloc::{AllocError, Global};

// Appends the row of two corresponding entries with the first civil second that only one of them
// matches, or nothing if there is none.
fn tell_difference(
    alloc: Global,
    form: Form,
    one: &Known<'_>,
    other: &Known<'_>,
    report: &mut Vec<u8>,
) -> Result<(), AllocError>
    ensures { OnOk result (AppendsTold (TellsDifference form (view one.now) (view other.now))
        report.old.items report.new.items) }
{
    match first_difference(one.schedules.as_slice(), other.schedules.as_slice()) {
        Some(found) => push_difference(alloc, report, form, one, other, found),
        None => Ok(()),
    }
}

// Appends the row of an entry of the first crontab, if it is gone or matches other civil seconds.
// `other` is the corresponding entry of the second, or `None` if it is gone.
fn tell_of_old(
    alloc: Global,
    form: Form,
    one: &Known<'_>,
    other: Option<&Known<'_>>,
    report: &mut Vec<u8>,
) -> Result<(), AllocError>
    ensures { OnOk result (AppendsTold (TellsOfOld form (view one.now) (other_view other.entry))
        report.old.items report.new.items) }
{
    match other {
        Some(other) => tell_difference(alloc, form, one, other, report),
        None => push_entry(alloc, report, form, Change::Gone, one),
    }
}

/// Appends a row for each of the first crontab's `entries` that is gone or matches other civil
/// seconds. `others` are the second crontab's entries.
pub(crate) fn tell_old(
    alloc: Global,
    form: Form,
    entries: &[Known<'_>],
    others: &[Known<'_>],
    report: &mut Vec<u8>,
) -> Result<(), AllocError>
    ensures { OnOk result (AppendsTold (TellsOld form (map view others.now) [] (map view entries.now))
        report.old.items report.new.items) }
{
    for place in 0..entries.len() {
        let one = &entries[place];
        let other = other_of(others, &entries[..place], one);
        tell_of_old(alloc, form, one, other, report)?;
    }
    Ok(())
}

// Appends the row of an entry of the second crontab, if it is new. `other` is the corresponding
// entry of the first, or `None` if it is new.
fn tell_of_new(
    alloc: Global,
    form: Form,
    one: &Known<'_>,
    other: Option<&Known<'_>>,
    report: &mut Vec<u8>,
) -> Result<(), AllocError>
    ensures { OnOk result (report.new.items
        ≡ report.old.items ++ new_row form (view one.now) (other_view other.entry)) }
{
    match other {
        Some(_) => Ok(()),
        None => push_entry(alloc, report, form, Change::New, one),
    }
}

/// Appends a row for each of the second crontab's `entries` that is new. `others` are the first
/// crontab's entries.
pub(crate) fn tell_new(
    alloc: Global,
    form: Form,
    entries: &[Known<'_>],
    others: &[Known<'_>],
    report: &mut Vec<u8>,
) -> Result<(), AllocError>
    ensures { OnOk result (report.new.items
        ≡ report.old.items ++ new_rows form (map view others.now) [] (map view entries.now)) }
{
    for place in 0..entries.len() {
        let one = &entries[place];
        let other = other_of(others, &entries[..place], one);
        tell_of_new(alloc, form, one, other, report)?;
    }
    Ok(())
}
