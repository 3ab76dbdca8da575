//! The subcommand `ics`, which writes fires as a calendar of RFC 5545.

use crate::calendar::{demand_entries, expression_of, line_name};
use crate::list::{tabs_of, tell_refused};
use crate::spans::{front_span, gather, read_ends, say_missing};
use clap::ArgMatches;
use cron_answers::expression::{Expression, read_as};
use cron_answers::trouble::Trouble;
use cron_fires::ClockChanges;
use cron_ics::calendar::Wanted;
use cron_ics::domain::Domain;
use cron_ics::entry::Entry;
use cron_ics::error::IcsError;
use cron_ics::write::write_calendar;
use cron_plans::plan::Plan;
use cron_replies::status::Status;
use cron_tab_agenda::TabFile;
use cron_tab_lines::{Crontab, Line, Lines, NamedZone, zone_below};
use cron_tab_warnings::text_of;
use cron_writer::watched::Watched;
use crontool_machine::choices::changes_of;
use crontool_machine::domains::{domain_of, domain_text};
use crontool_machine::machine::{
    Surroundings, complain, no_memory, open_zone, read_all, say_trouble,
};
use crontool_machine::plans::Planning;
use crontool_machine::zones::TabZones;
use jiff::tz::TimeZone;
use std::alloc::{AllocError, Global};
use std::io;

/// The greatest number of events, unless another is chosen.
const MOST: u64 = 10_000;

/// The number of minutes of the longest event: a leap year.
const MOST_MINUTES: u64 = 527_040;

/// An expression with the text that identifies its events, their summary, and the number of its
/// zone.
#[derive(Drop)]
struct Named<'a> {
    text: &'a [u8],
    summary: &'a [u8],
    expression: Expression,
    zone: usize,
}

// Adds the expressions of the command line. If a text is no expression, the reason is written, and
// `Err` has the status of the subcommand.
fn add_words<'a>(
    rt: &HostRuntime,
    named: &mut Vec<Named<'a>>,
    texts: &[&'a str],
    quartz: bool,
) -> Result<(), Status> {
    for text in texts {
        let bytes = text.as_bytes();
        match read_as(quartz, *text) {
            Ok(expression) => match named.push(Named {
                text: bytes,
                summary: bytes,
                expression,
                zone: 0,
            }) {
                Ok(()) => {}
                Err(_) => return Err(no_memory(rt)),
            },
            Err(refusal) => return Err(say_trouble(rt, &Trouble::Expression(*text, refusal))),
        }
    }
    Ok(())
}

// Adds the entries of a crontab, each in its zone. Entries after a `CRON_TZ` that names no zone are
// left out.
fn add_entries<'a>(
    named: &mut Vec<Named<'a>>,
    file: &'a [u8],
    names: &[NamedZone<'_>],
) -> Result<(), AllocError> {
    let mut here = Some(0);
    for line in Lines::of(Crontab::User, file) {
        if let (Some(zone), Ok(Line::Entry(entry))) = (here, &line.read) {
            named.push(Named {
                text: line_name(line.bytes),
                summary: entry.command,
                expression: expression_of(entry, text_of(line.bytes)),
                zone,
            })?;
        }
        here = zone_below(names, here, &line);
    }
    Ok(())
}

// The entries of the calendar, each in its zone and by `plan`. The rule at clock changes is `chosen`,
// or each entry's own if that is `None`.
fn entries_of<'a>(
    alloc: Global,
    named: &'a [Named<'a>],
    zones: &'a [TimeZone<'a>],
    plan: Option<Plan<'a>>,
    chosen: Option<ClockChanges>,
) -> Result<Vec<Entry<'a>>, AllocError> {
    let mut entries = Vec::new(alloc);
    for one in named {
        if let Some(zone) = zones.get(one.zone) {
            entries.push(Entry {
                text: one.text,
                summary: one.summary,
                schedules: one.expression.as_slice(),
                plan,
                once: matches!(one.expression.changes(chosen), ClockChanges::Once),
                zone,
            })?;
        }
    }
    Ok(entries)
}

/// How long an event is, in minutes, and the greatest number of events.
#[derive(Clone, Copy)]
struct Limits {
    minutes: u32,
    most: usize,
}

// The limits of the calendar. If one is wrong, that is written, and `Err` has the status of the
// subcommand.
fn limits_of(rt: &HostRuntime, words: &ArgMatches<'_>) -> Result<Limits, Status> {
    let minutes = words.get_one::<u64>("minutes").unwrap_or(1);
    if minutes < 1 || minutes > MOST_MINUTES {
        return Err(complain(rt, "--minutes is 1 to 527040", Status::WrongWords));
    }
    Ok(Limits {
        minutes: minutes as u32,
        most: words.get_one::<u64>("most").unwrap_or(MOST) as usize,
    })
}

// Writes the calendar of `entries`, or why there is none.
fn write_entries(rt: &HostRuntime, entries: &[Entry<'_>], wanted: &Wanted<'_>) -> Status {
    let mut out = Watched::new(io::writer(rt));
    match write_calendar(rt.alloc(), entries, wanted, &mut out) {
        Ok(()) if out.has_failed() => Status::WriteFailed,
        Ok(()) => Status::Done,
        Err(IcsError::NoEvents) => complain(
            rt,
            "nothing fires then, and a calendar has an event or more",
            Status::No,
        ),
        Err(IcsError::TooMany) => complain(
            rt,
            "more events than --most, which is 10000 if left out",
            Status::WrongWords,
        ),
        Err(IcsError::OutOfMemory) => no_memory(rt),
    }
}

// Adds the entries of crontabs, and reports which lines are refused.
fn read_tabs<'a>(
    rt: &HostRuntime,
    files: &[TabFile<'a>],
    names: &[NamedZone<'_>],
    named: &mut Vec<Named<'a>>,
) -> Result<Status, Status> {
    let mut told = Status::Done;
    for file in files {
        if add_entries(named, file.bytes, names).is_err() {
            return Err(no_memory(rt));
        }
        told = told.worse(tell_refused(rt, file, names));
    }
    Ok(told)
}

// Writes the calendar of expressions, which fire in `zone`, and of crontabs, whose entries fire there
// too or in the zones that `CRON_TZ` names. A report on the refused lines of the crontabs comes
// first.
fn write_zoned<'x>(
    rt: &HostRuntime,
    words: &ArgMatches<'_>,
    (texts, files): (&[&'x str], &[TabFile<'x>]),
    wanted: &Wanted<'_>,
    zone: TimeZone<'_>,
    around: &'x Surroundings,
) -> Result<Status, Status> {
    let planning = Planning::of(rt, words, "last")?;
    let tabs = TabZones::of(rt, files, around)?;
    let numbered = tabs.numbered(rt, zone)?;
    let mut named = Vec::new(rt.alloc());
    add_words(rt, &mut named, texts, words.get_flag("quartz"))?;
    let told = read_tabs(rt, files, numbered.names.as_slice(), &mut named)?;
    match entries_of(
        rt.alloc(),
        named.as_slice(),
        numbered.zones.as_slice(),
        planning.plan(),
        changes_of(words),
    ) {
        Ok(entries) => Ok(told.worse(write_entries(rt, entries.as_slice(), wanted))),
        Err(_) => Err(no_memory(rt)),
    }
}

// Writes the calendar that the words request.
fn write_words(
    rt: &HostRuntime,
    words: &ArgMatches<'_>,
    files: &[TabFile<'_>],
    zone: &str,
    domain: Domain<'_>,
) -> Result<Status, Status> {
    let limits = limits_of(rt, words)?;
    let given = gather(rt, words, &["START", "END", "EXPRESSION"])?;
    let around = Surroundings::of(rt)?;
    let opened = open_zone(rt, zone, &around)?;
    let zone = opened.time_zone();
    let Some((span, texts)) = front_span(given.as_slice(), &zone, around.now) else {
        return Err(say_missing(rt));
    };
    let (start, end) = read_ends(rt, &span, &zone, around.now)?;
    demand_entries(rt, texts, words.get_strs("file").unwrap_or(&[]))?;
    let wanted = Wanted {
        start,
        end,
        minutes: limits.minutes,
        most: limits.most,
        written: around.now,
        domain,
    };
    write_zoned(rt, words, (texts, files), &wanted, zone, &around)
}

// Writes the calendar with UIDs that end with the chosen domain, or else the host's name.
fn write_named(
    rt: &HostRuntime,
    words: &ArgMatches<'_>,
    files: &[TabFile<'_>],
    zone: &str,
) -> Result<Status, Status> {
    let text = domain_text(rt, words)?;
    let is_word = words.get_str("uid-domain").is_some();
    let domain = domain_of(rt, text.as_slice(), is_word)?;
    write_words(rt, words, files, zone, domain)
}

// Reads the crontabs that the words name, and writes the calendar.
fn write_files(rt: &HostRuntime, words: &ArgMatches<'_>, zone: &str) -> Result<Status, Status> {
    let names = words.get_strs("file").unwrap_or(&[]);
    let read = read_all(rt, names)?;
    match tabs_of(rt.alloc(), Crontab::User, names, read.as_slice()) {
        Ok(files) => write_named(rt, words, files.as_slice(), zone),
        Err(_) => Err(no_memory(rt)),
    }
}

/// Carries out the subcommand `ics`, and returns its status.
pub fn answer(rt: &HostRuntime, words: &ArgMatches<'_>) -> Status {
    match words.get_str("zone") {
        Some(zone) => match write_files(rt, words, zone) {
            Ok(status) | Err(status) => status,
        },
        None => say_missing(rt),
    }
}
