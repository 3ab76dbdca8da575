//! The report of what the entries of crontabs missed.
ghost use Rattle.std.specs.Prelude.{◌≡◌, IfErr, IfOk, OnOk, false, map};
ghost use Rattle.std.specs.List.{flat_map, list_any};
ghost use Rattle.jiff.specs.Words.{plain_zone};
ghost use Rattle.cron_controls.specs.Controls.{shown_by};
ghost use Rattle.cron_replies.specs.Statuses.{Reports, is_write_failure};
ghost use Rattle.cron_tab_missed.specs.Entries.{given, view};
ghost use Rattle.cron_tab_missed.specs.Reports.{TellsMissed, has_missed, is_failed, missed_status, report_of};
ghost use Rattle.cron_writer.specs.Watching.{has_failed};

use crate::entries::{Asked, TabMissed, entries_of};
use crate::error::MissedError;
use crate::rows::push_row;
use cron_controls::{Controls, shown_as};
use cron_replies::form::Form;
use cron_replies::sending::send_bytes;
use cron_replies::status::Status;
use cron_tab_agenda::TabFile;
use cron_writer::watchable::Watchable;
use cron_writer::watched::Watched;
use jiff::tz::TimeZone;
use std::alloc::{AllocError, Global};

// The rows of entries, with control characters as they are wanted.
fn report_of(
    alloc: Global,
    form: Form,
    controls: Controls,
    entries: &[TabMissed<'_>],
) -> Result<Vec<u8>, AllocError>
    ensures { IfOk result (λ report. report.items
        ≡ report_of form controls (map view entries.now)) }
{
    let mut report = Vec::new(alloc);
    for entry in entries {
        push_row(alloc, &mut report, form, entry)?;
    }
    shown_as(alloc, controls, report)
}

// Whether an entry missed a fire.
fn has_missed(entries: &[TabMissed<'_>]) -> bool
    ensures { result ≡ list_any has_missed (map view entries.now) }
{
    entries.iter().any(|entry| entry.count != 0)
}

// The status: `No` if an entry missed a fire, else `Done`.
fn missed_status(entries: &[TabMissed<'_>]) -> Status
    ensures status { result ≡ missed_status (map view entries.now) }
    ensures done { is_write_failure result ≡ false }
{
    if has_missed(entries) {
        Status::No
    } else {
        Status::Done
    }
}

/// Writes a row for each entry of crontabs, one file after another: how many fires it missed, the
/// first and the last of them, and the entry. The status is `No` if one missed a fire, else `Done`,
/// or `WriteFailed` if a write or the flush fails. On an error nothing is written. No call of the
/// writer may have failed before.
#[tactic(auto, using(crate::proofs::EntryLemmas::memory_runs_out))]
pub fn tell_missed<W: Watchable>(
    alloc: Global,
    form: Form,
    controls: Controls,
    files: &[TabFile<'_>],
    asked: &Asked<'_>,
    zones: &[TimeZone<'_>],
    out: &mut Watched<W>,
) -> Result<Status, MissedError>
    requires { has_failed out.old ≡ false }
    ensures tells { TellsMissed form controls (given (map plain_zone zones.now) asked.now) files.now
        (Reports W.contents W.writes W.flushes) out.old result out.new }
    ensures mark { has_failed out.new ≡ is_failed result }
{
    let entries = entries_of(alloc, files, asked, zones)?;
    let entries = entries.as_slice();
    let Ok(report) = report_of(alloc, form, controls, entries) else {
        return Err(MissedError::OutOfMemory);
    };
    Ok(send_bytes(report.as_slice(), missed_status(entries), out))
}
