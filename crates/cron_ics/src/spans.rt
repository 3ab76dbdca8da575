//! Events that last from one instant to another, such as maintenance windows or shifts of a rota.
//! A page is begun, takes one span after another, and is finished. A calendar of RFC 5545 has one
//! event or more.
ghost use Rattle.std.specs.Prelude.{◌≡◌, ◌++◌, ◌<ℤ◌, List, ℕ, IfOk, OnOk};
ghost use Rattle.jiff_core.specs.DateTime.{civil_nanos};
ghost use Rattle.jiff_core.specs.Timestamp.{IsTimestampNanos, nanos_of_seconds};
ghost use Rattle.cron_ics.specs.Calendars.{end_text, head_text};
ghost use Rattle.cron_ics.specs.Events.{digest_text, folded_lines, summary_line};
ghost use Rattle.cron_ics.specs.Folding.{folded};
ghost use Rattle.cron_ics.specs.Spans.{IsSpan, end_lines, span_uid};

use crate::domain::Domain;
use crate::escape::summary_line;
use crate::event::{digest_of, push_number, push_time};
use crate::fold::push_line;
use jiff::Timestamp;
use jiff::civil::DateTime;
use jiff::tz::Offset;
use std::alloc::{AllocError, Global};

/// What spans share that belong together, such as the shifts of one rota.
#[derive(Clone, Copy)]
pub struct Series<'a> {
    /// The text that identifies the series' spans from run to run. Two series of one calendar need
    /// different texts: else spans with the same ends get the same UID.
    pub text: &'a [u8],
    /// The name of the calendar's writer, which each span's UID ends with.
    pub domain: Domain<'a>,
    /// The instant when the spans are written.
    pub written: Timestamp,
}

/// Appends the lines that precede all events of a calendar. On an error `page` may hold some of
/// them.
pub fn push_begin(page: &mut Vec<u8>) -> Result<(), AllocError>
    ensures { OnOk result (page.new.items ≡ page.old.items ++ head_text) }
{
    push_line(page, b"BEGIN:VCALENDAR")?;
    push_line(page, b"VERSION:2.0")?;
    push_line(page, b"PRODID:-//crontool//crontool ics//EN")
}

/// Appends the line that ends a calendar. On an error `page` may hold a part of it.
pub fn push_finish(page: &mut Vec<u8>) -> Result<(), AllocError>
    ensures { OnOk result (page.new.items ≡ page.old.items ++ end_text) }
{
    push_line(page, b"END:VCALENDAR")
}

// The date and time in UTC at an instant.
fn utc_of(instant: Timestamp) -> DateTime
    ensures { civil_nanos result ≡ instant.nanosecond }
{
    Offset::UTC.to_datetime(instant)
}

// The date and time in UTC at `second`, counted from 1970-01-01T00:00:00Z.
fn utc_at(second: i64) -> DateTime
    requires { IsTimestampNanos (nanos_of_seconds second) }
    ensures { civil_nanos result ≡ nanos_of_seconds second }
{
    utc_of(Timestamp::from_second(second).unwrap())
}

// The line of the UID, which identifies a span: the digest of its series, its ends, and the domain.
fn uid_line(
    alloc: Global,
    series: &Series<'_>,
    from: i64,
    until: i64,
) -> Result<Vec<u8>, AllocError>
    ensures { IfOk result (λ line. line.items
        ≡ span_uid (digest_text series.now.text.now) from until series.now.domain.text.now) }
{
    let digest = digest_of(alloc, series.text)?;
    let mut line = Vec::from_slice(alloc, b"UID:")?;
    line.extend_from_slice(digest.as_str().as_bytes())?;
    line.extend_from_slice(b"-")?;
    push_number(&mut line, from)?;
    line.extend_from_slice(b"-")?;
    push_number(&mut line, until)?;
    line.extend_from_slice(b"@")?;
    line.extend_from_slice(series.domain.text)?;
    Ok(line)
}

// Appends the line of the UID, folded.
fn push_uid(
    alloc: Global,
    page: &mut Vec<u8>,
    series: &Series<'_>,
    from: i64,
    until: i64,
) -> Result<(), AllocError>
    ensures { OnOk result (page.new.items ≡ page.old.items ++ folded
        (span_uid (digest_text series.now.text.now) from until series.now.domain.text.now)) }
{
    let line = uid_line(alloc, series, from, until)?;
    push_line(page, line.as_slice())
}

// Appends the line of a summary, folded.
fn push_summary(alloc: Global, page: &mut Vec<u8>, text: &[u8]) -> Result<(), AllocError>
    ensures { OnOk result (page.new.items ≡ page.old.items ++ folded (summary_line text.now)) }
{
    let line = summary_line(alloc, text)?;
    push_line(page, line.as_slice())
}

// Appends the lines of a span's times: when it was written, its start and its end.
fn push_ends(
    alloc: Global,
    page: &mut Vec<u8>,
    stamp: DateTime,
    start: DateTime,
    end: DateTime,
) -> Result<(), AllocError>
    ensures { OnOk result
        (page.new.items ≡ page.old.items ++ folded_lines (end_lines stamp start end)) }
{
    push_time(alloc, page, b"DTSTAMP:", stamp)?;
    push_time(alloc, page, b"DTSTART:", start)?;
    push_time(alloc, page, b"DTEND:", end)
}

/// Appends the event of one span, which begins at the second `from` and ends at the second `until`.
/// Both count from 1970-01-01T00:00:00Z. Years before 0 lose their sign. In the summary U+FFFD
/// replaces bytes that aren't UTF-8, and control characters other than a tab and a line feed. On an
/// error, which says that memory ran out, `page` may hold a part of the event.
pub fn push_span(
    alloc: Global,
    page: &mut Vec<u8>,
    series: &Series<'_>,
    summary: &[u8],
    from: i64,
    until: i64,
) -> Result<(), AllocError>
    requires from { IsTimestampNanos (nanos_of_seconds from) }
    requires until { IsTimestampNanos (nanos_of_seconds until) }
    requires order { from <ℤ until }
    ensures { OnOk result ((text : List ℕ) × IsSpan series.now summary.now from until text
        × (page.new.items ≡ page.old.items ++ text)) }
{
    let (stamp, start, end) = (utc_of(series.written), utc_at(from), utc_at(until));
    push_line(page, b"BEGIN:VEVENT")?;
    push_uid(alloc, page, series, from, until)?;
    push_ends(alloc, page, stamp, start, end)?;
    push_summary(alloc, page, summary)?;
    push_line(page, b"TRANSP:TRANSPARENT")?;
    push_line(page, b"END:VEVENT")?;
    Ok(())
}
