//! The subcommand `rota`, which tells who is on duty.

use crate::events::write_page;
use crate::windows::span_of;
use clap::ArgMatches;
use cron_ics::pages::Span as Event;
use cron_replies::status::Status;
use cron_rota_answers::gathering::{Roster, roster_in};
use cron_rota_answers::rota::{Request, SwapFile, Which, answer as answer_rota};
use cron_rota_answers::trouble::tell;
use cron_stretches::stretch::Stretch;
use cron_writer::watched::Watched;
use cron_zones::machine::MachineFiles;
use crontool_machine::choices::{changes_of, form_of};
use crontool_machine::machine::{Surroundings, complain, no_memory, read_file, say_unread};
use jiff::Timestamp;
use std::alloc::{AllocError, Global};
use std::io;

const NOBODY: &str = "nobody is on duty then, and a calendar has an event or more";

// What the words ask of a rota.
fn which_of<'a>(words: &ArgMatches<'a>) -> Option<Which<'a>> {
    match words.get_str("at") {
        Some(at) => Some(Which::At(at)),
        None => Some(Which::Between(span_of(words)?)),
    }
}

// The request of the words, without swaps.
fn request_of<'a>(words: &ArgMatches<'a>) -> Option<Request<'a>> {
    Some(Request {
        which: which_of(words)?,
        people: words.get_str("people")?,
        handover: words.get_str("handover")?,
        quartz: words.get_flag("quartz"),
        from: words.get_str("from")?,
        swaps: None,
        zone: words.get_str("zone")?,
        changes: changes_of(words),
        form: form_of(words),
    })
}

// Answers a request with the machine's clock, zones and streams. `Err` has the status of the
// subcommand if the clock, TZ or TZDIR can't be read.
fn answer_here(rt: &HostRuntime, request: &Request<'_>) -> Result<Status, Status> {
    let around = Surroundings::of(rt)?;
    let mut out = Watched::new(io::writer(rt));
    let mut complaints = Watched::new(rt.stderr());
    Ok(answer_rota(
        rt.alloc(),
        request,
        around.now,
        &around.places(),
        &mut MachineFiles(rt),
        &mut out,
        &mut complaints,
    ))
}

// The text that identifies the events of a rota from run to run.
fn series_text(alloc: Global, request: &Request<'_>) -> Result<String, AllocError> {
    let (people, handover, from) = (request.people, request.handover, request.from);
    format!(in alloc; "rota\n{people}\n{handover}\n{from}\n")
}

// The events of shifts, each with the name of the person as its summary.
fn events_of<'a>(
    alloc: Global,
    names: &[&'a str],
    shifts: &[Stretch<u32>],
) -> Result<Vec<Event<'a>>, AllocError> {
    let mut events = Vec::new(alloc);
    for shift in shifts {
        let place = shift.value as usize;
        if place < names.len() {
            let name = names[place];
            let title = name.as_bytes();
            if let Some(event) = Event::new(title, shift.first, shift.end) {
                events.push(event)?;
            }
        }
    }
    Ok(events)
}

// Writes the calendar of the shifts of a roster.
fn write_roster(
    rt: &HostRuntime,
    words: &ArgMatches<'_>,
    request: &Request<'_>,
    roster: &Roster<'_>,
    written: Timestamp,
) -> Result<Status, Status> {
    let Ok(text) = series_text(rt.alloc(), request) else {
        return Err(no_memory(rt));
    };
    let (names, shifts) = (roster.names.as_slice(), roster.shifts.as_slice());
    let Ok(events) = events_of(rt.alloc(), names, shifts) else {
        return Err(no_memory(rt));
    };
    let series = text.as_bytes();
    let spans = events.as_slice();
    write_page(rt, words, series, spans, written, NOBODY)
}

// Writes the calendar of shifts, in a zone of the machine.
fn write_around<'x>(
    rt: &HostRuntime,
    words: &ArgMatches<'_>,
    request: Request<'x>,
    around: &'x Surroundings,
) -> Result<Status, Status> {
    let places = around.places();
    let mut files = MachineFiles(rt);
    match roster_in(rt.alloc(), &request, around.now, &places, &mut files) {
        Ok(roster) => write_roster(rt, words, &request, &roster, around.now),
        Err(trouble) => Err(tell(rt.alloc(), &trouble, &mut Watched::new(rt.stderr()))),
    }
}

// Writes the calendar of shifts with the machine's clock, zones and streams.
fn write_here(
    rt: &HostRuntime,
    words: &ArgMatches<'_>,
    request: Request<'_>,
) -> Result<Status, Status> {
    let around = Surroundings::of(rt)?;
    write_around(rt, words, request, &around)
}

// Answers a request in the form that the words choose.
fn answer_as(
    rt: &HostRuntime,
    words: &ArgMatches<'_>,
    request: &Request<'_>,
) -> Result<Status, Status> {
    if words.get_flag("ics") {
        write_here(rt, words, *request)
    } else {
        answer_here(rt, request)
    }
}

// Answers a request with the swaps of a file. `Err` has the status of the subcommand if the file, or
// what else it needs of the machine, can't be read.
fn answer_swapped<'a>(
    rt: &HostRuntime,
    words: &ArgMatches<'_>,
    request: Request<'a>,
    name: &'a str,
) -> Result<Status, Status> {
    let read = match read_file(rt, name) {
        Ok(read) => read,
        Err(error) => return Err(say_unread(rt, name, &error)),
    };
    let bytes = read.as_slice();
    let swaps = Some(SwapFile { name, bytes });
    answer_as(rt, words, &Request { swaps, ..request })
}

/// Carries out the subcommand `rota`, and returns its status.
pub(crate) fn answer(rt: &HostRuntime, words: &ArgMatches<'_>) -> Status {
    let Some(request) = request_of(words) else {
        return complain(rt, "a word is missing", Status::WrongWords);
    };
    let answered = match words.get_str("swaps") {
        Some(name) => answer_swapped(rt, words, request, name),
        None => answer_as(rt, words, &request),
    };
    match answered {
        Ok(status) | Err(status) => status,
    }
}
