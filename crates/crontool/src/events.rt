//! Windows and shifts as the events of a calendar.

use clap::ArgMatches;
use cron_ics::domain::Domain;
use cron_ics::error::IcsError;
use cron_ics::pages::{Span, write_spans};
use cron_ics::spans::Series;
use cron_replies::status::Status;
use cron_writer::watched::Watched;
use crontool_machine::domains::{domain_of, domain_text};
use crontool_machine::machine::{complain, no_memory};
use jiff::Timestamp;
use std::io;

// Writes the calendar of spans, or why there is none.
fn write_series<'x>(
    rt: &HostRuntime,
    text: &'x [u8],
    domain: Domain<'x>,
    spans: &[Span<'_>],
    written: Timestamp,
    none: &str,
) -> Status {
    let series = Series {
        text,
        domain,
        written,
    };
    let mut out = Watched::new(io::writer(rt));
    match write_spans(rt.alloc(), &series, spans, &mut out) {
        Ok(()) if out.has_failed() => Status::WriteFailed,
        Ok(()) => Status::Done,
        Err(IcsError::NoEvents) => complain(rt, none, Status::No),
        Err(_) => no_memory(rt),
    }
}

/// Writes the calendar of spans, which are of the series that `text` identifies. `none` is said
/// where there is no span. UIDs end with the domain that the words name.
pub(crate) fn write_page(
    rt: &HostRuntime,
    words: &ArgMatches<'_>,
    text: &[u8],
    spans: &[Span<'_>],
    written: Timestamp,
    none: &str,
) -> Result<Status, Status> {
    let host = domain_text(rt, words)?;
    let is_word = words.get_str("uid-domain").is_some();
    let domain = domain_of(rt, host.as_slice(), is_word)?;
    Ok(write_series(rt, text, domain, spans, written, none))
}
