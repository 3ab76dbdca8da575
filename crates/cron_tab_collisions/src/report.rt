//! The report of the entries of crontabs that collide.
ghost use Rattle.std.specs.Prelude.{◌≡◌, ◌*◌, IfErr, IfOk, false, map};
ghost use Rattle.jiff.specs.Words.{plain_zone};
ghost use Rattle.cron_tab_fires.specs.Entries.{given, view};
ghost use Rattle.cron_tab_collisions.specs.Collisions.{IsFilesError, TellsAll, TellsCollisions, entries_of, found_status, is_failed};
ghost use Rattle.cron_replies.specs.Statuses.{Reports, is_write_failure};
ghost use Rattle.cron_writer.specs.Watching.{has_failed};

use crate::pairs::tell_all;
use cron_replies::form::Form;
use cron_replies::sending::send_bytes;
use cron_replies::status::Status;
use cron_tab_agenda::TabFile;
use cron_tab_fires::{Asked, FiresError, TabFires, add_fires};
use cron_tab_lines::Lines;
use cron_writer::watchable::Watchable;
use cron_writer::watched::Watched;
use jiff::tz::TimeZone;
use std::alloc::Global;

// The entries of crontabs, one file after another, each with the fires that `asked` wants.
fn entries_of<'a>(
    alloc: Global,
    files: &[TabFile<'a>],
    asked: &Asked<'_>,
    zones: &[TimeZone<'_>],
) -> Result<Vec<TabFires<'a>>, FiresError>
    ensures ok { IfOk result (λ entries. map view entries.items
        ≡ entries_of (given (map plain_zone zones.now) asked.now) files.now) }
    ensures err { IfErr result
        (IsFilesError (given (map plain_zone zones.now) asked.now) files.now) }
{
    let mut entries = Vec::new(alloc);
    for file in files {
        let lines = Lines::of(file.kind, file.bytes);
        add_fires(alloc, &mut entries, file.name, lines, asked, zones)?;
    }
    Ok(entries)
}

// The rows of the pairs of entries that collide, where each fire lasts `minutes` minutes.
fn report_of(
    alloc: Global,
    form: Form,
    minutes: u32,
    files: &[TabFile<'_>],
    asked: &Asked<'_>,
    zones: &[TimeZone<'_>],
) -> Result<Vec<u8>, FiresError>
    ensures ok { IfOk result (λ report. TellsAll form (60 * minutes)
        (entries_of (given (map plain_zone zones.now) asked.now) files.now) report.items) }
    ensures err { IfErr result
        (IsFilesError (given (map plain_zone zones.now) asked.now) files.now) }
{
    let entries = entries_of(alloc, files, asked, zones)?;
    let mut report = Vec::new(alloc);
    let seconds = 60 * u64::from(minutes);
    match tell_all(alloc, form, seconds, entries.as_slice(), &mut report) {
        Ok(()) => Ok(report),
        Err(_) => Err(FiresError::OutOfMemory),
    }
}

// The status: `Done` if there is a row, else `No`.
fn found_status(report: &[u8]) -> Status
    ensures status { result ≡ found_status report.now }
    ensures done { is_write_failure result ≡ false }
{
    if report.is_empty() {
        Status::No
    } else {
        Status::Done
    }
}

/// Writes a row for each pair of entries of crontabs that collide, where each fire lasts `minutes`
/// minutes. The row has the lines of both entries, their first collision and the number of
/// collisions. The status is `Done`, `No` if no entries collide, or `WriteFailed` if a write or the
/// flush fails. On an error nothing is written. No call of the writer may have failed before.
pub fn tell_collisions<W: Watchable>(
    alloc: Global,
    form: Form,
    minutes: u32,
    files: &[TabFile<'_>],
    asked: &Asked<'_>,
    zones: &[TimeZone<'_>],
    out: &mut Watched<W>,
) -> Result<Status, FiresError>
    requires { has_failed out.old ≡ false }
    ensures tells { TellsCollisions form minutes (given (map plain_zone zones.now) asked.now) files.now
        (Reports W.contents W.writes W.flushes) out.old result out.new }
    ensures mark { has_failed out.new ≡ is_failed result }
{
    match report_of(alloc, form, minutes, files, asked, zones) {
        Ok(report) => Ok(send_bytes(report.as_slice(), found_status(report.as_slice()), out)),
        Err(error) => Err(error),
    }
}
