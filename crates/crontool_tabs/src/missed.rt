//! The subcommand `missed`, which tells what the entries of crontabs missed.

use crate::list::{tabs_of, tell_all_refused};
use crate::spans::{read_instant, say_missing};
use clap::ArgMatches;
use cron_replies::form::Form;
use cron_replies::status::Status;
use cron_tab_agenda::TabFile;
use cron_tab_missed::report::tell_missed;
use cron_tab_missed::{Asked, Since};
use cron_tab_running::Noted;
use cron_writer::watched::Watched;
use crontool_machine::choices::{clock_of, form_of, kind_of};
use crontool_machine::machine::{
    Surroundings, controls_of, no_memory, open_zone, read_all, read_file, say_error, say_unread,
};
use crontool_machine::notes::{note_path, noted_in};
use crontool_machine::zones::TabZones;
use jiff::Timestamp;
use jiff::tz::TimeZone;
use std::io;

// The note in the folder of `--state`, if one is given. The folder is only read, and isn't locked.
fn noted_of(rt: &HostRuntime, words: &ArgMatches<'_>) -> Result<Option<Noted>, Status> {
    let Some(folder) = words.get_str("state") else {
        return Ok(None);
    };
    let path = note_path(rt, folder)?;
    match read_file(rt, path.as_str()) {
        Ok(bytes) => Ok(Some(noted_in(rt, path.as_str(), bytes.as_slice())?)),
        Err(error) => Err(say_unread(rt, path.as_str(), &error)),
    }
}

// From when on fires count: by the note, if one is asked, else after the instant.
fn since_of<'n>(noted: &'n Option<Noted>, instant: Timestamp) -> Since<'n> {
    match noted {
        Some(noted) => Since::Noted(noted),
        None => Since::After(instant),
    }
}

// Reports which lines of crontabs are refused, and then what the other entries missed.
fn tell_files(
    rt: &HostRuntime,
    form: Form,
    files: &[TabFile<'_>],
    asked: &Asked<'_>,
    zones: &[TimeZone<'_>],
) -> Result<Status, Status> {
    let told = tell_all_refused(rt, files, asked.names)?;
    let controls = controls_of(&rt.stdout());
    let mut out = Watched::new(io::writer(rt));
    match tell_missed(rt.alloc(), form, controls, files, asked, zones, &mut out) {
        Ok(status) => Ok(told.worse(status)),
        Err(error) => Err(say_error(rt, &error)),
    }
}

// Reports what the entries of files missed since `instant`, or since a note. They fire in `zone`, or in the zones that `CRON_TZ`
// names.
fn tell_zoned(
    rt: &HostRuntime,
    words: &ArgMatches<'_>,
    files: &[TabFile<'_>],
    instant: Timestamp,
    zone: TimeZone<'_>,
    around: &Surroundings,
) -> Result<Status, Status> {
    let noted = noted_of(rt, words)?;
    let opened = TabZones::of(rt, files, around)?;
    let numbered = opened.numbered(rt, zone)?;
    let asked = Asked {
        clock: clock_of(words),
        since: since_of(&noted, instant),
        until: around.now,
        names: numbered.names.as_slice(),
    };
    tell_files(rt, form_of(words), files, &asked, numbered.zones.as_slice())
}

// Reads files, and reports what their entries missed.
fn tell_names(
    rt: &HostRuntime,
    words: &ArgMatches<'_>,
    names: &[&str],
    instant: Timestamp,
    zone: TimeZone<'_>,
    around: &Surroundings,
) -> Result<Status, Status> {
    let read = read_all(rt, names)?;
    match tabs_of(rt.alloc(), kind_of(words), names, read.as_slice()) {
        Ok(files) => tell_zoned(rt, words, files.as_slice(), instant, zone, around),
        Err(_) => Err(no_memory(rt)),
    }
}

// Reports what the entries of the files that the words name missed.
fn tell_words(
    rt: &HostRuntime,
    words: &ArgMatches<'_>,
    names: &[&str],
    zone: &str,
) -> Result<Status, Status> {
    let around = Surroundings::of(rt)?;
    let opened = open_zone(rt, zone, &around)?;
    let zone = opened.time_zone();
    let text = words.get_str("since").unwrap_or("now");
    let instant = read_instant(rt, text, &zone, around.now)?;
    tell_names(rt, words, names, instant, zone, &around)
}

/// Carries out the subcommand `missed`, and returns its status.
pub fn answer(rt: &HostRuntime, words: &ArgMatches<'_>) -> Status {
    let (Some(names), Some(zone)) = (words.get_strs("FILE"), words.get_str("zone")) else {
        return say_missing(rt);
    };
    match tell_words(rt, words, names, zone) {
        Ok(status) | Err(status) => status,
    }
}
