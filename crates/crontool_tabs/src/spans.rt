//! The instants and spans of time that a command line names.

use clap::ArgMatches;
use cron_answers::instant::instant_of;
use cron_answers::span::{Span, ends_of, span_before};
use cron_answers::trouble::Trouble;
use cron_replies::status::Status;
use crontool_machine::machine::{complain, no_memory, say_trouble};
use jiff::Timestamp;
use jiff::tz::TimeZone;

/// Reads an instant. If the text is none, that is written, and `Err` has the status of the
/// subcommand.
pub fn read_instant(
    rt: &HostRuntime,
    text: &str,
    zone: &TimeZone<'_>,
    now: Timestamp,
) -> Result<Timestamp, Status> {
    match instant_of(text, zone, now) {
        Some(instant) => Ok(instant),
        None => Err(say_trouble(rt, &Trouble::Instant(text))),
    }
}

/// The instant after which a span begins, and the last one in it. If its words name none, that is
/// written, and `Err` has the status of the subcommand.
pub(crate) fn read_ends(
    rt: &HostRuntime,
    span: &Span<'_>,
    zone: &TimeZone<'_>,
    now: Timestamp,
) -> Result<(Timestamp, Timestamp), Status> {
    match ends_of(span, zone, now) {
        Ok(ends) => Ok(ends),
        Err(trouble) => Err(say_trouble(rt, &trouble)),
    }
}

/// The span that some words begin with, and the words after it. If they begin with none, it is the
/// first word, which `read_ends` then refuses. `None` without a word.
pub(crate) fn front_span<'a, 'w>(
    words: &'w [&'a str],
    zone: &TimeZone<'_>,
    now: Timestamp,
) -> Option<(Span<'a>, &'w [&'a str])> {
    let (span, rest) = span_before(words, zone, now);
    if let Some(span) = span {
        return Some((span, rest));
    }
    match words {
        [first, rest @ ..] => Some((Span::Whole(*first), rest)),
        [] => None,
    }
}

/// Writes that the command line lacks a word. Returns the status of the subcommand.
pub fn say_missing(rt: &HostRuntime) -> Status {
    complain(rt, "a word is missing", Status::WrongWords)
}

/// The values of these arguments, in order. If memory runs out, that is written, and `Err` has the
/// status of the subcommand.
pub(crate) fn gather<'a>(
    rt: &HostRuntime,
    words: &ArgMatches<'a>,
    names: &[&'static str],
) -> Result<Vec<&'a str>, Status> {
    let mut gathered = Vec::new(rt.alloc());
    for name in names {
        if let Some(some) = words.get_strs(*name) {
            if gathered.extend_from_slice(some).is_err() {
                return Err(no_memory(rt));
            }
        }
    }
    Ok(gathered)
}
