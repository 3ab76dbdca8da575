//! The report of what differs between two crontabs.
ghost use Rattle.std.specs.Prelude.{◌≡◌, [], IfOk, false};
ghost use Rattle.cron_tab_lines.specs.Files.{file_lines};
ghost use Rattle.cron_tab_comparing.specs.Changes.{TellsAll};
ghost use Rattle.cron_tab_comparing.specs.Entries.{entries_in};
ghost use Rattle.cron_tab_comparing.specs.Reports.{TellsChanges, changed_status};
ghost use Rattle.cron_replies.specs.Statuses.{Reports, is_write_failure};
ghost use Rattle.cron_writer.specs.Watching.{has_failed};

use crate::entries::entries_of;
use crate::telling::{tell_new, tell_old};
use cron_controls::{Controls, shown_as};
use cron_replies::form::Form;
use cron_replies::sending::send_bytes;
use cron_replies::status::Status;
use cron_tab_lines::{Crontab, Lines};
use cron_writer::watchable::Watchable;
use cron_writer::watched::Watched;
use std::alloc::{AllocError, Global};

// The rows of all differences between the crontabs `old` and `new`, which are both of this kind.
fn report_of(
    alloc: Global,
    form: Form,
    kind: Crontab,
    old: &[u8],
    new: &[u8],
) -> Result<Vec<u8>, AllocError>
    ensures { IfOk result (λ report. TellsAll form (entries_in [] (file_lines kind old.now))
        (entries_in [] (file_lines kind new.now)) report.items) }
{
    let entries = entries_of(alloc, Lines::of(kind, old))?;
    let others = entries_of(alloc, Lines::of(kind, new))?;
    let ones = entries.as_slice();
    let others = others.as_slice();
    let mut report = Vec::new(alloc);
    tell_old(alloc, form, ones, others, &mut report)?;
    tell_new(alloc, form, others, ones, &mut report)?;
    Ok(report)
}

// The status: `Done` if there is no row, else `No`.
fn changed_status(report: &[u8]) -> Status
    ensures status { result ≡ changed_status report.now }
    ensures done { is_write_failure result ≡ false }
{
    if report.is_empty() {
        Status::Done
    } else {
        Status::No
    }
}

/// Writes a row for each entry of the crontab `old` that is gone or matches other civil seconds,
/// and then for each entry of `new` that is new. Entries that run the same correspond to each
/// other: the first to the first, the second to the second, and so on. The status is `Done` if
/// there is no row, else `No`. It is `WriteFailed` if a write or the flush fails, and `Unreadable`
/// if memory runs out: nothing is written then. No call of the writer may have failed before.
pub fn tell_changes<W: Watchable>(
    alloc: Global,
    form: Form,
    controls: Controls,
    kind: Crontab,
    old: &[u8],
    new: &[u8],
    out: &mut Watched<W>,
) -> Status
    requires { has_failed out.old ≡ false }
    ensures tells { TellsChanges form controls (entries_in [] (file_lines kind old.now))
        (entries_in [] (file_lines kind new.now))
        (Reports W.contents W.writes W.flushes) out.old result out.new }
    ensures mark { has_failed out.new ≡ is_write_failure result }
{
    let Ok(report) = report_of(alloc, form, kind, old, new) else {
        return Status::Unreadable;
    };
    let status = changed_status(report.as_slice());
    match shown_as(alloc, controls, report) {
        Ok(text) => send_bytes(text.as_slice(), status, out),
        Err(_) => Status::Unreadable,
    }
}
