//! The subcommand `explain` with `--file`, which explains the entries of crontabs.

use crate::list::{tabs_of, tell_all_refused};
use crate::spans::{gather, read_instant, say_missing};
use clap::ArgMatches;
use cron_controls::shown_as;
use cron_replies::status::Status;
use cron_tab_agenda::TabFile;
use cron_tab_answers::explained::{Explaining, explain_file};
use crontool_machine::choices::{clock_of, form_of, kind_of};
use crontool_machine::machine::{
    Surroundings, controls_of, no_memory, open_zone, read_all, write_page,
};
use crontool_machine::zones::TabZones;
use jiff::Timestamp;
use jiff::tz::TimeZone;
use std::alloc::AllocError;

// The rows of all entries, as they are written.
fn rows_of(
    rt: &HostRuntime,
    explaining: &Explaining<'_>,
    files: &[TabFile<'_>],
) -> Result<Vec<u8>, AllocError> {
    let mut rows = Vec::new(rt.alloc());
    for file in files {
        explain_file(rt.alloc(), &mut rows, explaining, file)?;
    }
    shown_as(rt.alloc(), controls_of(&rt.stdout()), rows)
}

// Explains the entries of crontabs, after a report on their refused lines. Entries fire in `zone`,
// or in the zones that `CRON_TZ` names.
fn explain_zoned<'x>(
    rt: &HostRuntime,
    words: &ArgMatches<'_>,
    files: &[TabFile<'x>],
    start: Timestamp,
    zone: TimeZone<'x>,
    around: &'x Surroundings,
) -> Result<Status, Status> {
    let opened = TabZones::of(rt, files, around)?;
    let numbered = opened.numbered(rt, zone)?;
    let told = tell_all_refused(rt, files, numbered.names.as_slice())?;
    let explaining = Explaining {
        form: form_of(words),
        clock: clock_of(words),
        start,
        names: numbered.names.as_slice(),
        zones: numbered.zones.as_slice(),
    };
    match rows_of(rt, &explaining, files) {
        Ok(rows) => Ok(told.worse(write_page(rt, rows.as_slice()))),
        Err(_) => Err(no_memory(rt)),
    }
}

// Reads the files, the zone and the instant of the words, and explains the entries.
fn explain_words(
    rt: &HostRuntime,
    words: &ArgMatches<'_>,
    zone: &str,
    after: &str,
) -> Result<Status, Status> {
    let names = gather(rt, words, &["file"])?;
    let names = names.as_slice();
    let read = read_all(rt, names)?;
    let Ok(files) = tabs_of(rt.alloc(), kind_of(words), names, read.as_slice()) else {
        return Err(no_memory(rt));
    };
    let around = Surroundings::of(rt)?;
    let opened = open_zone(rt, zone, &around)?;
    let zone = opened.time_zone();
    let start = read_instant(rt, after, &zone, around.now)?;
    explain_zoned(rt, words, files.as_slice(), start, zone, &around)
}

/// Carries out the subcommand `explain` for crontabs, and returns its status.
pub fn answer(rt: &HostRuntime, words: &ArgMatches<'_>) -> Status {
    let (Some(zone), Some(after)) = (words.get_str("zone"), words.get_str("after")) else {
        return say_missing(rt);
    };
    match explain_words(rt, words, zone, after) {
        Ok(status) | Err(status) => status,
    }
}
