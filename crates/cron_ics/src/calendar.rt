//! The calendar of entries: the text of a file of RFC 5545 (iCalendar), with one event for each
//! fire.
ghost use Rattle.std.specs.Prelude.{◌≡◌, ◌<◌, ◌≤◌, ◌+◌, ◌++◌, [], List, ℕ, IfErr, IfOk, OnOk, length, slice_get, take, Some, string_bytes};
ghost use Rattle.jiff_core.specs.DateTime.{civil_nanos};
ghost use Rattle.cron_ics.specs.Calendars.{AreEvents, IsBody, IsCalendar, IsRefusal, head_text, total, wanted_fires};
ghost use Rattle.cron_ics.specs.Events.{copies, digest_text, summary_line};

use crate::domain::Domain;
use crate::entry::{Entry, copies};
use crate::error::IcsError;
use crate::escape::summary_line;
use crate::event::{Heading, digest_of, push_events};
use crate::fires::fires_of;
use crate::fold::push_line;
use jiff::Timestamp;
use jiff::tz::Offset;
use std::alloc::{AllocError, Global};

/// Which fires become events, how long these last, and who writes the calendar when.
#[derive(Clone, Copy)]
pub struct Wanted<'a> {
    /// Only fires after this instant become events.
    pub start: Timestamp,
    /// Only fires up to and including this instant become events.
    pub end: Timestamp,
    /// How many minutes an event lasts.
    pub minutes: u32,
    /// The greatest number of events: a calendar with more is refused.
    pub most: usize,
    /// The instant when the calendar is written.
    pub written: Timestamp,
    /// The name of the calendar's writer, which each event's UID ends with.
    pub domain: Domain<'a>,
}

// What all events of `entry` share. The entries `before` precede it in the calendar.
fn heading_of<'a>(
    alloc: Global,
    before: &[Entry<'_>],
    entry: &Entry<'_>,
    wanted: &Wanted<'a>,
) -> Result<Heading<'a>, AllocError>
    ensures digest { IfOk result (λ h. string_bytes h.digest ≡ digest_text entry.now.text.now) }
    ensures copy { IfOk result (λ h. h.copy ≡ copies entry.now.text.now before.now) }
    ensures domain { IfOk result (λ h. h.domain.text.now ≡ wanted.now.domain.text.now) }
    ensures stamp { IfOk result (λ h. civil_nanos h.stamp ≡ wanted.now.written.nanosecond) }
    ensures minutes { IfOk result (λ h. h.minutes ≡ wanted.now.minutes) }
    ensures summary { IfOk result (λ h. h.summary.items ≡ summary_line entry.now.summary.now) }
{
    Ok(Heading {
        digest: digest_of(alloc, entry.text)?,
        copy: copies(before, entry.text),
        domain: wanted.domain,
        stamp: Offset::UTC.to_datetime(wanted.written),
        minutes: wanted.minutes,
        summary: summary_line(alloc, entry.summary)?,
    })
}

// Appends the events of `entry` and returns their number. The entries `before` precede it. If it
// has more than `room` fires, that is an error.
fn push_entry(
    alloc: Global,
    page: &mut Vec<u8>,
    before: &[Entry<'_>],
    entry: &Entry<'_>,
    wanted: &Wanted<'_>,
    room: usize,
) -> Result<usize, IcsError>
    ensures pushed { OnOk result ((text : List ℕ) × AreEvents wanted.now before.now entry.now text
        × (page.new.items ≡ page.old.items ++ text)) }
    ensures count { IfOk result (λ n. (n ≡ length (wanted_fires wanted.now entry.now))
        × (n ≤ room)) }
    ensures many { IfErr result (λ why. why ≡ IcsError.TooMany
        → room < length (wanted_fires wanted.now entry.now)) }
    ensures some { IfErr result (λ why. why ≡ IcsError.NoEvents → ⊥) }
{
    let fires = fires_of(alloc, entry, wanted.start, wanted.end, room)?;
    let Ok(heading) = heading_of(alloc, before, entry, wanted) else {
        return Err(IcsError::OutOfMemory);
    };
    let list = fires.as_slice();
    if push_events(alloc, page, &heading, list).is_err() {
        return Err(IcsError::OutOfMemory);
    }
    Ok(list.len())
}

// A text with the lines that precede all events.
fn page_head(alloc: Global) -> Result<Vec<u8>, AllocError>
    ensures { IfOk result (λ page. page.items ≡ head_text) }
{
    let mut page = Vec::new(alloc);
    push_line(&mut page, b"BEGIN:VCALENDAR")?;
    push_line(&mut page, b"VERSION:2.0")?;
    push_line(&mut page, b"PRODID:-//crontool//crontool ics//EN")?;
    Ok(page)
}

// Appends the events of all entries and returns their number. More than `wanted.most` events are an
// error.
fn push_body(
    alloc: Global,
    page: &mut Vec<u8>,
    entries: &[Entry<'_>],
    wanted: &Wanted<'_>,
) -> Result<usize, IcsError>
    ensures pushed { OnOk result ((body : List ℕ) × IsBody wanted.now [] entries.now body
        × (page.new.items ≡ page.old.items ++ body)) }
    ensures count { IfOk result (λ n. n ≡ total wanted.now entries.now) }
    ensures few { OnOk result (total wanted.now entries.now ≤ wanted.now.most) }
    ensures refused { IfErr result (IsRefusal wanted.now entries.now) }
{
    let mut count = 0;
    for place in 0..entries.len() {
        let (before, entry) = (&entries[..place], &entries[place]);
        count += push_entry(alloc, page, before, entry, wanted, wanted.most - count)?;
    }
    Ok(count)
}

/// The calendar of `entries`, with one event for each fire, entry by entry. It is refused if it has
/// no event, or more than `wanted.most`. Entries with equal texts are distinguished by how many of
/// them come before. In summaries U+FFFD replaces bytes that aren't UTF-8, and control characters
/// other than a tab and a line feed.
pub fn calendar(
    alloc: Global,
    entries: &[Entry<'_>],
    wanted: &Wanted<'_>,
) -> Result<Vec<u8>, IcsError>
    ensures page { IfOk result (λ page. IsCalendar wanted.now entries.now page.items) }
    ensures some { OnOk result (0 < total wanted.now entries.now) }
    ensures few { IfOk result (λ page. total wanted.now entries.now ≤ wanted.now.most) }
    ensures refused { IfErr result (IsRefusal wanted.now entries.now) }
{
    let Ok(mut page) = page_head(alloc) else {
        return Err(IcsError::OutOfMemory);
    };
    if push_body(alloc, &mut page, entries, wanted)? == 0 {
        return Err(IcsError::NoEvents);
    }
    if push_line(&mut page, b"END:VCALENDAR").is_err() {
        return Err(IcsError::OutOfMemory);
    }
    Ok(page)
}
