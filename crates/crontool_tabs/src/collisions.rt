//! The subcommand `collisions`, which writes the entries of crontabs that collide.

use crate::list::{tabs_of, tell_all_refused};
use crate::spans::{front_span, gather, read_ends, say_missing};
use clap::ArgMatches;
use cron_replies::form::Form;
use cron_replies::status::Status;
use cron_tab_agenda::{Clock, TabFile};
use cron_tab_collisions::report::tell_collisions;
use cron_tab_fires::Asked;
use cron_tab_lines::Crontab;
use cron_writer::watched::Watched;
use crontool_machine::choices::{clock_of, form_of, kind_of};
use crontool_machine::machine::{
    Surroundings, complain, no_memory, open_zone, read_all, say_error,
};
use crontool_machine::zones::TabZones;
use jiff::Timestamp;
use jiff::tz::TimeZone;
use std::io;

/// The options of `collisions` but for the files. The zone isn't read yet.
#[derive(Clone, Copy)]
struct Request<'a> {
    kind: Crontab,
    form: Form,
    clock: Clock,
    zone: &'a str,
    minutes: u32,
}

fn request_of<'a>(words: &ArgMatches<'a>) -> Option<Request<'a>> {
    Some(Request {
        kind: kind_of(words),
        form: form_of(words),
        clock: clock_of(words),
        zone: words.get_str("zone")?,
        minutes: words.get_one::<u32>("minutes")?,
    })
}

// Reports which lines of crontabs are refused, and then which of the other entries collide.
fn tell_files(
    rt: &HostRuntime,
    request: &Request<'_>,
    files: &[TabFile<'_>],
    asked: &Asked<'_>,
    zones: &[TimeZone<'_>],
) -> Result<Status, Status> {
    let told = tell_all_refused(rt, files, asked.names)?;
    let mut out = Watched::new(io::writer(rt));
    let (alloc, form, minutes) = (rt.alloc(), request.form, request.minutes);
    match tell_collisions(alloc, form, minutes, files, asked, zones, &mut out) {
        Ok(status) => Ok(told.worse(status)),
        Err(error) => Err(say_error(rt, &error)),
    }
}

// Reports which entries of files collide. They fire in `zone`, or in the zones that `CRON_TZ`
// names.
fn tell_zoned(
    rt: &HostRuntime,
    request: &Request<'_>,
    files: &[TabFile<'_>],
    ends: (Timestamp, Timestamp),
    zone: TimeZone<'_>,
    around: &Surroundings,
) -> Result<Status, Status> {
    let opened = TabZones::of(rt, files, around)?;
    let numbered = opened.numbered(rt, zone)?;
    let asked = Asked {
        clock: request.clock,
        start: ends.0,
        end: ends.1,
        names: numbered.names.as_slice(),
    };
    tell_files(rt, request, files, &asked, numbered.zones.as_slice())
}

// Reads the files that the words name, and reports which of their entries collide.
fn tell_words(
    rt: &HostRuntime,
    request: &Request<'_>,
    words: &ArgMatches<'_>,
) -> Result<Status, Status> {
    let given = gather(rt, words, &["START", "END", "FILE", "file"])?;
    let around = Surroundings::of(rt)?;
    let opened = open_zone(rt, request.zone, &around)?;
    let zone = opened.time_zone();
    let Some((span, names)) = front_span(given.as_slice(), &zone, around.now) else {
        return Err(say_missing(rt));
    };
    let ends = read_ends(rt, &span, &zone, around.now)?;
    if names.is_empty() {
        return Err(complain(rt, "a FILE is wanted", Status::WrongWords));
    }
    let read = read_all(rt, names)?;
    match tabs_of(rt.alloc(), request.kind, names, read.as_slice()) {
        Ok(files) => tell_zoned(rt, request, files.as_slice(), ends, zone, &around),
        Err(_) => Err(no_memory(rt)),
    }
}

/// Carries out the subcommand `collisions`, and returns its status.
pub fn answer(rt: &HostRuntime, words: &ArgMatches<'_>) -> Status {
    let Some(request) = request_of(words) else {
        return say_missing(rt);
    };
    match tell_words(rt, &request, words) {
        Ok(status) | Err(status) => status,
    }
}
