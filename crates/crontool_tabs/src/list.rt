//! The subcommand `list`, which lists the fires of crontabs' entries.

use crate::check::{front_of, told_name};
use crate::spans::{gather, read_ends, read_instant, say_missing};
use clap::ArgMatches;
use cron_answers::span::{Span, span_before};
use cron_replies::form::Form;
use cron_replies::status::Status;
use cron_tab_agenda::{Clock, TabFile};
use cron_tab_answers::check::{Wanted as Checked, check};
use cron_tab_answers::tab_files::{Firing, TabAgenda, load_file};
use cron_tab_answers::tab_row::Style;
use cron_tab_answers::tabs::list;
use cron_tab_lines::{Crontab, NamedZone};
use cron_writer::watched::Watched;
use crontool_machine::choices::{clock_of, form_of, kind_of};
use crontool_machine::looks::{times_of, try_times};
use crontool_machine::machine::{
    Surroundings, complain, controls_of, no_memory, open_zone, read_all, say_error,
};
use crontool_machine::zones::TabZones;
use jiff::Timestamp;
use jiff::tz::TimeZone;
use std::alloc::{AllocError, Global};
use std::io;

/// The span that is listed unless another is named: the next 24 hours.
const NEXT_DAY: Span<'static> = Span::Ends("now", "+24h");

/// The options of `list`. Zone and instants aren't read yet.
#[derive(Clone, Copy)]
struct Request<'a> {
    kind: Crontab,
    form: Form,
    clock: Clock,
    zone: &'a str,
    after: &'a str,
    count: Option<u64>,
}

/// The fires that are listed: at most `most` after `start`, up to and with `end`. The present is
/// `now`.
#[derive(Clone, Copy)]
struct Wanted {
    now: Timestamp,
    start: Timestamp,
    end: Timestamp,
    most: usize,
}

// The options. `None` if one is missing: a parse of the command line refuses that before.
fn request_of<'a>(words: &ArgMatches<'a>) -> Option<Request<'a>> {
    Some(Request {
        kind: kind_of(words),
        form: form_of(words),
        clock: clock_of(words),
        zone: words.get_str("zone")?,
        after: words.get_str("after").unwrap_or("now"),
        count: words.get_one::<u64>("count"),
    })
}

// The span that the words begin with, and the names of the files. With `--count` each word is a
// file.
fn split_words<'a, 'w>(
    request: &Request<'_>,
    words: &'w [&'a str],
    zone: &TimeZone<'_>,
    now: Timestamp,
) -> (Option<Span<'a>>, &'w [&'a str]) {
    match request.count {
        Some(_) => (None, words),
        None => span_before(words, zone, now),
    }
}

// The fires that are listed: as many as `--count` says, or those of the span, or else of the next 24
// hours. If one of its words is wrong, that is written, and `Err` has the status of the subcommand.
fn wanted_of(
    rt: &HostRuntime,
    request: &Request<'_>,
    span: Option<Span<'_>>,
    zone: &TimeZone<'_>,
    now: Timestamp,
) -> Result<Wanted, Status> {
    if let Some(count) = request.count {
        return Ok(Wanted {
            now,
            start: read_instant(rt, request.after, zone, now)?,
            end: Timestamp::MAX,
            most: count as usize,
        });
    }
    let (start, end) = read_ends(rt, &span.unwrap_or(NEXT_DAY), zone, now)?;
    Ok(Wanted {
        now,
        start,
        end,
        most: usize::MAX,
    })
}

/// Reports on standard error which lines of a crontab are refused, and whether the last line lacks
/// a line feed. The status is `No` if a line is refused, else `Done` if nothing fails.
pub(crate) fn tell_refused(
    rt: &HostRuntime,
    file: &TabFile<'_>,
    names: &[NamedZone<'_>],
) -> Status {
    let Ok(front) = front_of(rt.alloc(), file.name) else {
        return no_memory(rt);
    };
    let wanted = Checked {
        kind: file.kind,
        front: front.as_str(),
        warn: false,
        found: &[],
        needs_feed: false,
        controls: controls_of(&rt.stderr()),
        names,
    };
    let mut complaints = Watched::new(rt.stderr());
    match check(rt.alloc(), &wanted, file.bytes, &mut complaints) {
        Status::Unreadable => no_memory(rt),
        status => status,
    }
}

/// Reports which lines of crontabs are refused. The status is `No` if one is, else `Done`. If the
/// subcommand can't go on, `Err` has its status.
pub fn tell_all_refused(
    rt: &HostRuntime,
    files: &[TabFile<'_>],
    names: &[NamedZone<'_>],
) -> Result<Status, Status> {
    let mut told = Status::Done;
    for file in files {
        told = told.worse(tell_refused(rt, file, names));
    }
    if told.code() > Status::No.code() {
        return Err(told);
    }
    Ok(told)
}

// Reports which lines of a crontab are refused, and adds the entries of the others.
fn load<'a>(
    rt: &HostRuntime,
    tabs: &mut TabAgenda<'a>,
    file: &TabFile<'a>,
    firing: &Firing<'_>,
    zones: &[TimeZone<'_>],
) -> Status {
    let told = tell_refused(rt, file, firing.names);
    match load_file(tabs, file, firing, zones) {
        Ok(()) => told,
        Err(error) => say_error(rt, &error),
    }
}

// Lists the fires of the loaded entries that are wanted.
fn list_loaded(
    rt: &HostRuntime,
    request: &Request<'_>,
    words: &ArgMatches<'_>,
    tabs: TabAgenda<'_>,
    wanted: Wanted,
    zones: &[TimeZone<'_>],
) -> Status {
    let times = match times_of(rt, words, wanted.now, true) {
        Ok(times) => times,
        Err(status) => return status,
    };
    let mut out = Watched::new(io::writer(rt));
    let TabAgenda {
        mut agenda,
        sources,
    } = tabs;
    let sources = sources.as_slice();
    match list(
        rt.alloc(),
        &Style {
            form: request.form,
            controls: controls_of(&rt.stdout()),
            times,
        },
        &mut agenda,
        sources,
        wanted.end,
        wanted.most,
        zones,
        &mut out,
    ) {
        Ok(status) => status,
        Err(fault) => say_error(rt, &fault),
    }
}

// Lists the fires of crontabs that are wanted, after a report on their refused lines.
fn list_tabs(
    rt: &HostRuntime,
    request: &Request<'_>,
    words: &ArgMatches<'_>,
    files: &[TabFile<'_>],
    firing: &Firing<'_>,
    wanted: Wanted,
    zones: &[TimeZone<'_>],
) -> Status {
    let mut tabs = TabAgenda::new(rt.alloc());
    let mut told = Status::Done;
    for file in files {
        told = told.worse(load(rt, &mut tabs, file, firing, zones));
    }
    if told.code() > Status::No.code() {
        return told;
    }
    told.worse(list_loaded(rt, request, words, tabs, wanted, zones))
}

// Lists the fires of crontabs in `zone`, or in the zones that `CRON_TZ` names.
fn list_zoned(
    rt: &HostRuntime,
    request: &Request<'_>,
    words: &ArgMatches<'_>,
    files: &[TabFile<'_>],
    wanted: Wanted,
    zone: TimeZone<'_>,
    around: &Surroundings,
) -> Result<Status, Status> {
    let opened = TabZones::of(rt, files, around)?;
    let numbered = opened.numbered(rt, zone)?;
    let firing = Firing {
        clock: request.clock,
        start: wanted.start,
        names: numbered.names.as_slice(),
    };
    Ok(list_tabs(
        rt,
        request,
        words,
        files,
        &firing,
        wanted,
        numbered.zones.as_slice(),
    ))
}

/// The crontabs with these contents. Each has its name for messages if there are several.
pub(crate) fn tabs_of<'a>(
    alloc: Global,
    kind: Crontab,
    names: &'a [&str],
    read: &'a [Vec<u8>],
) -> Result<Vec<TabFile<'a>>, AllocError> {
    let mut files = Vec::new(alloc);
    for (name, bytes) in names.iter().zip(read.iter()) {
        files.push(TabFile {
            kind,
            name: told_name(*name, names.len()),
            bytes: bytes.as_slice(),
        })?;
    }
    Ok(files)
}

// Reads files, and lists the fires of their entries.
fn list_files(
    rt: &HostRuntime,
    request: &Request<'_>,
    words: &ArgMatches<'_>,
    names: &[&str],
    wanted: Wanted,
    zone: TimeZone<'_>,
    around: &Surroundings,
) -> Result<Status, Status> {
    let read = read_all(rt, names)?;
    match tabs_of(rt.alloc(), request.kind, names, read.as_slice()) {
        Ok(files) => list_zoned(rt, request, words, files.as_slice(), wanted, zone, around),
        Err(_) => Err(no_memory(rt)),
    }
}

// Refuses words that say wrongly how times are written, before anything is listed.
fn try_words(rt: &HostRuntime, words: &ArgMatches<'_>, now: Timestamp) -> Result<(), Status> {
    match times_of(rt, words, now, true) {
        Ok(times) => try_times(rt, &times),
        Err(status) => Err(status),
    }
}

// Reads the span and the files that the arguments `given` name, and lists the fires of their entries.
fn list_given(
    rt: &HostRuntime,
    request: &Request<'_>,
    words: &ArgMatches<'_>,
    given: &[&str],
) -> Result<Status, Status> {
    let around = Surroundings::of(rt)?;
    try_words(rt, words, around.now)?;
    let opened = open_zone(rt, request.zone, &around)?;
    let zone = opened.time_zone();
    let (span, names) = split_words(request, given, &zone, around.now);
    let wanted = wanted_of(rt, request, span, &zone, around.now)?;
    if names.is_empty() {
        return Err(complain(rt, "a FILE is wanted", Status::WrongWords));
    }
    list_files(rt, request, words, names, wanted, zone, &around)
}

// Lists the fires that the words ask for.
fn list_words(
    rt: &HostRuntime,
    request: &Request<'_>,
    words: &ArgMatches<'_>,
) -> Result<Status, Status> {
    let given = gather(rt, words, &["START|FILE", "END|FILE", "FILE"])?;
    list_given(rt, request, words, given.as_slice())
}

/// Carries out the subcommand `list`, and returns its status.
pub fn answer(rt: &HostRuntime, words: &ArgMatches<'_>) -> Status {
    let Some(request) = request_of(words) else {
        return say_missing(rt);
    };
    match list_words(rt, &request, words) {
        Ok(status) | Err(status) => status,
    }
}
