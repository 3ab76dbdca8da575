//! The subcommands `windows` and `inside`, which tell when windows open and close.

use crate::events::write_page;
use clap::ArgMatches;
use cron_answers::span::Span;
use cron_ics::pages::Span as Event;
use cron_replies::status::Status;
use cron_stretches::stretch::Stretch;
use cron_window_answers::gathering::windows_in;
use cron_window_answers::words::{Closes, Words, seconds_of};
use cron_window_answers::{inside, windows};
use cron_writer::watched::Watched;
use cron_zones::machine::MachineFiles;
use crontool_machine::choices::{changes_of, form_of};
use crontool_machine::machine::{Surroundings, complain, no_memory, say_trouble};
use jiff::Timestamp;
use std::alloc::{AllocError, Global};
use std::io;

/// The most minutes that a window may be open: their seconds fit 32 bits.
const MOST_MINUTES: u64 = 71_582_788;

const NO_WORD: &str = "a word is missing";

const NO_WINDOW: &str = "no window is open then, and a calendar has an event or more";

// What closes windows. `Err` says what is wrong with the words.
fn closes_of<'a>(words: &ArgMatches<'a>) -> Result<Closes<'a>, &'static str> {
    if let Some(expression) = words.get_str("closes") {
        return Ok(Closes::At(expression));
    }
    let minutes = words.get_one::<u64>("minutes").ok_or(NO_WORD)?;
    if minutes > MOST_MINUTES {
        return Err("--minutes is 1 to 71582788");
    }
    match seconds_of(minutes as u32) {
        Some(seconds) => Ok(Closes::After(seconds)),
        None => Err("--minutes is 1 to 71582788"),
    }
}

// The windows that the words name. `Err` says what is wrong with the words.
fn named_of<'a>(words: &ArgMatches<'a>) -> Result<Words<'a>, &'static str> {
    Ok(Words {
        opens: words.get_str("opens").ok_or(NO_WORD)?,
        closes: closes_of(words)?,
        quartz: words.get_flag("quartz"),
        zone: words.get_str("zone").ok_or(NO_WORD)?,
        changes: changes_of(words),
    })
}

/// The span that the words START and END name, or START alone.
pub(crate) fn span_of<'a>(words: &ArgMatches<'a>) -> Option<Span<'a>> {
    let start = words.get_str("START")?;
    match words.get_str("END") {
        Some(end) => Some(Span::Ends(start, end)),
        None => Some(Span::Whole(start)),
    }
}

// Lists windows with the machine's clock, zones and streams. `Err` has the status of the subcommand
// if the clock, TZ or TZDIR can't be read.
fn list_here(rt: &HostRuntime, request: &windows::Request<'_>) -> Result<Status, Status> {
    let around = Surroundings::of(rt)?;
    let mut out = Watched::new(io::writer(rt));
    let mut complaints = Watched::new(rt.stderr());
    Ok(windows::answer(
        rt.alloc(),
        request,
        around.now,
        &around.places(),
        &mut MachineFiles(rt),
        &mut out,
        &mut complaints,
    ))
}

// Says whether a window is open, with the same. `Err` is the same too.
fn say_here(rt: &HostRuntime, request: &inside::Request<'_>) -> Result<Status, Status> {
    let around = Surroundings::of(rt)?;
    let mut out = Watched::new(io::writer(rt));
    let mut complaints = Watched::new(rt.stderr());
    Ok(inside::answer(
        rt.alloc(),
        request,
        around.now,
        &around.places(),
        &mut MachineFiles(rt),
        &mut out,
        &mut complaints,
    ))
}

// The text that identifies the events of windows from run to run.
fn series_text(alloc: Global, words: &Words<'_>) -> Result<String, AllocError> {
    let opens = words.opens;
    match words.closes {
        Closes::At(closes) => format!(in alloc; "windows\n{opens}\n{closes}\n"),
        Closes::After(seconds) => {
            let seconds = seconds.get();
            format!(in alloc; "windows\n{opens}\n{seconds} s\n")
        }
    }
}

// The events of windows, each with the same summary.
fn events_of<'a>(
    alloc: Global,
    list: &[Stretch<bool>],
    summary: &'a str,
) -> Result<Vec<Event<'a>>, AllocError> {
    let title = summary.as_bytes();
    let mut events = Vec::new(alloc);
    for window in list {
        if let Some(event) = Event::new(title, window.first, window.end) {
            events.push(event)?;
        }
    }
    Ok(events)
}

// Writes the calendar of these windows.
fn write_list(
    rt: &HostRuntime,
    words: &ArgMatches<'_>,
    request: &windows::Request<'_>,
    list: &[Stretch<bool>],
    written: Timestamp,
) -> Result<Status, Status> {
    let summary = words.get_str("summary").unwrap_or("open");
    let Ok(text) = series_text(rt.alloc(), &request.words) else {
        return Err(no_memory(rt));
    };
    let Ok(events) = events_of(rt.alloc(), list, summary) else {
        return Err(no_memory(rt));
    };
    let series = text.as_bytes();
    let spans = events.as_slice();
    write_page(rt, words, series, spans, written, NO_WINDOW)
}

// Writes the calendar of windows, in a zone of the machine.
fn write_around<'x>(
    rt: &HostRuntime,
    words: &ArgMatches<'_>,
    request: windows::Request<'x>,
    around: &'x Surroundings,
) -> Result<Status, Status> {
    let places = around.places();
    let mut files = MachineFiles(rt);
    match windows_in(
        rt.alloc(),
        &request.words,
        &request.span,
        around.now,
        &places,
        &mut files,
    ) {
        Ok(list) => write_list(rt, words, &request, list.as_slice(), around.now),
        Err(trouble) => Err(say_trouble(rt, &trouble)),
    }
}

// Writes the calendar of windows with the machine's clock, zones and streams.
fn write_here(
    rt: &HostRuntime,
    words: &ArgMatches<'_>,
    request: windows::Request<'_>,
) -> Result<Status, Status> {
    let around = Surroundings::of(rt)?;
    write_around(rt, words, request, &around)
}

/// Carries out the subcommand `windows`, and returns its status.
pub(crate) fn list(rt: &HostRuntime, words: &ArgMatches<'_>) -> Status {
    let (named, span) = match (named_of(words), span_of(words)) {
        (Ok(named), Some(span)) => (named, span),
        (Err(why), _) => return complain(rt, why, Status::WrongWords),
        (Ok(_), None) => return complain(rt, NO_WORD, Status::WrongWords),
    };
    let request = windows::Request {
        words: named,
        span,
        form: form_of(words),
    };
    let listed = if words.get_flag("ics") {
        write_here(rt, words, request)
    } else {
        list_here(rt, &request)
    };
    match listed {
        Ok(status) | Err(status) => status,
    }
}

/// Carries out the subcommand `inside`, and returns its status.
pub(crate) fn say(rt: &HostRuntime, words: &ArgMatches<'_>) -> Status {
    let (named, at) = match (named_of(words), words.get_str("at")) {
        (Ok(named), Some(at)) => (named, at),
        (Err(why), _) => return complain(rt, why, Status::WrongWords),
        (Ok(_), None) => return complain(rt, NO_WORD, Status::WrongWords),
    };
    let request = inside::Request {
        words: named,
        at,
        form: form_of(words),
    };
    match say_here(rt, &request) {
        Ok(status) | Err(status) => status,
    }
}
