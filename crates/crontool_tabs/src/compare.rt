//! The subcommand `compare`, which compares two expressions or two crontabs.

use crate::list::{tabs_of, tell_all_refused};
use crate::spans::say_missing;
use clap::ArgMatches;
use cron_answers::compare::compare;
use cron_replies::form::Form;
use cron_replies::status::Status;
use cron_tab_agenda::TabFile;
use cron_tab_comparing::report::tell_changes;
use cron_writer::watched::Watched;
use crontool_machine::choices::{form_of, kind_of};
use crontool_machine::machine::{Surroundings, complain, controls_of, no_memory, read_all};
use crontool_machine::pair::pair_of;
use crontool_machine::zones::TabZones;
use std::io;

// Writes what differs between two crontabs.
fn tell_two(rt: &HostRuntime, form: Form, files: &[TabFile<'_>]) -> Status {
    let [first, second] = files else {
        return say_missing(rt);
    };
    let mut out = Watched::new(io::writer(rt));
    let controls = controls_of(&rt.stdout());
    let (alloc, kind) = (rt.alloc(), first.kind);
    let (old, new) = (first.bytes, second.bytes);
    match tell_changes(alloc, form, controls, kind, old, new, &mut out) {
        Status::Unreadable => no_memory(rt),
        status => status,
    }
}

// Reports which lines of two crontabs are refused, and then what differs between them.
fn tell_files(
    rt: &HostRuntime,
    form: Form,
    files: &[TabFile<'_>],
    around: &Surroundings,
) -> Result<Status, Status> {
    let opened = TabZones::of(rt, files, around)?;
    let Ok(names) = opened.names(rt.alloc()) else {
        return Err(no_memory(rt));
    };
    let told = tell_all_refused(rt, files, names.as_slice())?;
    Ok(told.worse(tell_two(rt, form, files)))
}

// Reads two crontabs, and reports what differs.
fn compare_files(
    rt: &HostRuntime,
    words: &ArgMatches<'_>,
    names: &[&str],
) -> Result<Status, Status> {
    let read = read_all(rt, names)?;
    let around = Surroundings::of(rt)?;
    match tabs_of(rt.alloc(), kind_of(words), names, read.as_slice()) {
        Ok(files) => tell_files(rt, form_of(words), files.as_slice(), &around),
        Err(_) => Err(no_memory(rt)),
    }
}

// Compares two crontabs, by their names.
fn compare_named(rt: &HostRuntime, words: &ArgMatches<'_>, names: &[&str]) -> Status {
    if names.len() != 2 {
        return complain(
            rt,
            "two crontabs are wanted: --file FILE --file FILE",
            Status::WrongWords,
        );
    }
    match compare_files(rt, words, names) {
        Ok(status) | Err(status) => status,
    }
}

// Compares two expressions, or two crontabs if `--files` says that the words name these.
fn compare_pair(rt: &HostRuntime, words: &ArgMatches<'_>) -> Status {
    let Some(pair) = pair_of(words) else {
        return say_missing(rt);
    };
    if words.get_flag("files") {
        return compare_named(rt, words, &[pair.first, pair.second]);
    }
    if words.get_flag("system") {
        return complain(
            rt,
            "--system is for crontabs, after --file",
            Status::WrongWords,
        );
    }
    let mut out = Watched::new(io::writer(rt));
    let mut complaints = Watched::new(rt.stderr());
    compare(rt.alloc(), &pair, &mut out, &mut complaints)
}

/// Carries out the subcommand `compare`, and returns its status.
pub fn answer(rt: &HostRuntime, words: &ArgMatches<'_>) -> Status {
    match words.get_strs("file") {
        Some(names) if !names.is_empty() => compare_named(rt, words, names),
        _ => compare_pair(rt, words),
    }
}
