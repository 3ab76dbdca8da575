//! The events of an entry.
ghost use Rattle.std.specs.Prelude.{◌≡◌, ◌++◌, IfOk, OnOk, codes, string_bytes};
ghost use Rattle.std.specs.Fmt.{decimal, signed_decimal};
ghost use Rattle.std.specs.List.{flat_map};
ghost use Rattle.cron_ics.specs.Events.{digest_text, event_text, folded_lines, shared, time_lines, uid_line};
ghost use Rattle.cron_ics.specs.Folding.{folded};
ghost use Rattle.cron_ics.specs.Stamps.{stamp_text};

use crate::domain::Domain;
use crate::fires::Fire;
use crate::fold::push_line;
use crate::stamp::stamp_of;
use itoa::Buffer;
use jiff::civil::DateTime;
use sha2::{Digest, Sha256};
use std::alloc::{AllocError, Global};

/// The number of bytes of a SHA-256 that a digest has. Each is two hexadecimal digits.
const TOLD: usize = 16;

/// What all events of an entry share.
#[derive(Drop)]
pub(crate) struct Heading<'a> {
    /// The digest of the entry's text, in hexadecimal digits.
    pub(crate) digest: String,
    /// How many entries before the entry have the same text. Equal entries so get different UIDs.
    pub(crate) copy: usize,
    /// The name of the calendar's writer.
    pub(crate) domain: Domain<'a>,
    /// The time in UTC when the events are written.
    pub(crate) stamp: DateTime,
    /// How many minutes an event lasts.
    pub(crate) minutes: u32,
    /// The line of the events' summary.
    pub(crate) summary: Vec<u8>,
}

/// The digest of a text: the first 16 bytes of its SHA-256, in hexadecimal digits.
pub(crate) fn digest_of(alloc: Global, text: &[u8]) -> Result<String, AllocError>
    ensures { IfOk result (λ digits. string_bytes digits ≡ digest_text text.now) }
{
    let digest = Sha256::digest(text);
    hex::encode(alloc, &digest[..TOLD])
}

/// Appends a number in decimal digits, with a `-` if it is negative.
pub(crate) fn push_number(line: &mut Vec<u8>, number: i64) -> Result<(), AllocError>
    ensures { OnOk result (line.new.items ≡ line.old.items ++ signed_decimal number) }
{
    line.extend_from_slice(Buffer::new().format(number).as_bytes())
}

// Appends a number in decimal digits.
fn push_count(line: &mut Vec<u8>, number: u64) -> Result<(), AllocError>
    ensures { OnOk result (line.new.items ≡ line.old.items ++ decimal number) }
{
    line.extend_from_slice(Buffer::new().format(number).as_bytes())
}

// The line of the UID, which identifies an event: the digest and the copy of its entry, the fire's
// instant and civil second, and the domain.
fn uid_line(alloc: Global, heading: &Heading<'_>, fire: &Fire) -> Result<Vec<u8>, AllocError>
    ensures { IfOk result (λ line. line.items
        ≡ uid_line (string_bytes heading.now.digest) heading.now.copy fire.now
        heading.now.domain.text.now) }
{
    let mut line = Vec::from_slice(alloc, b"UID:")?;
    line.extend_from_slice(heading.digest.as_str().as_bytes())?;
    line.extend_from_slice(b"-")?;
    push_count(&mut line, heading.copy as u64)?;
    line.extend_from_slice(b"-")?;
    push_number(&mut line, fire.second)?;
    line.extend_from_slice(b"-")?;
    push_count(&mut line, u64::from(fire.civil))?;
    line.extend_from_slice(b"@")?;
    line.extend_from_slice(heading.domain.text)?;
    Ok(line)
}

// Appends the line of the UID, folded.
fn push_uid(
    alloc: Global,
    page: &mut Vec<u8>,
    heading: &Heading<'_>,
    fire: &Fire,
) -> Result<(), AllocError>
    ensures { OnOk result (page.new.items ≡ page.old.items
        ++ folded (uid_line (string_bytes heading.now.digest) heading.now.copy fire.now
        heading.now.domain.text.now)) }
{
    let line = uid_line(alloc, heading, fire)?;
    push_line(page, line.as_slice())
}

// Appends the line of the summary, folded.
fn push_summary(page: &mut Vec<u8>, heading: &Heading) -> Result<(), AllocError>
    ensures { OnOk result (page.new.items
        ≡ page.old.items ++ folded heading.now.summary.items) }
{
    push_line(page, heading.summary.as_slice())
}

/// Appends a line with a time of UTC after `name`, such as `DTSTART:`.
pub(crate) fn push_time(
    alloc: Global,
    page: &mut Vec<u8>,
    name: &[u8],
    utc: DateTime,
) -> Result<(), AllocError>
    ensures { OnOk result
        (page.new.items ≡ page.old.items ++ folded (name.now ++ stamp_text utc)) }
{
    let stamp = stamp_of(alloc, utc)?;
    let mut line = Vec::from_slice(alloc, name)?;
    line.extend_from_slice(stamp.as_slice())?;
    push_line(page, line.as_slice())
}

// Appends the line of an event's duration.
fn push_duration(alloc: Global, page: &mut Vec<u8>, minutes: u32) -> Result<(), AllocError>
    ensures { OnOk result (page.new.items ≡ page.old.items
        ++ folded (codes "DURATION:PT" ++ decimal minutes ++ codes "M")) }
{
    let mut line = Vec::from_slice(alloc, b"DURATION:PT")?;
    push_count(&mut line, u64::from(minutes))?;
    line.extend_from_slice(b"M")?;
    push_line(page, line.as_slice())
}

// Appends the lines of an event's times: when it was written, its start, and its duration.
fn push_times(
    alloc: Global,
    page: &mut Vec<u8>,
    heading: &Heading<'_>,
    fire: &Fire,
) -> Result<(), AllocError>
    ensures { OnOk result (page.new.items ≡ page.old.items
        ++ folded_lines (time_lines heading.now.stamp heading.now.minutes fire.now)) }
{
    push_time(alloc, page, b"DTSTAMP:", heading.stamp)?;
    push_time(alloc, page, b"DTSTART:", fire.utc)?;
    push_duration(alloc, page, heading.minutes)
}

// Appends the lines of one event.
fn push_event(
    alloc: Global,
    page: &mut Vec<u8>,
    heading: &Heading<'_>,
    fire: &Fire,
) -> Result<(), AllocError>
    ensures { OnOk result
        (page.new.items ≡ page.old.items ++ event_text (shared heading.now) fire.now) }
{
    push_line(page, b"BEGIN:VEVENT")?;
    push_uid(alloc, page, heading, fire)?;
    push_times(alloc, page, heading, fire)?;
    push_summary(page, heading)?;
    push_line(page, b"TRANSP:TRANSPARENT")?;
    push_line(page, b"END:VEVENT")?;
    Ok(())
}

/// Appends one event for each fire.
pub(crate) fn push_events(
    alloc: Global,
    page: &mut Vec<u8>,
    heading: &Heading<'_>,
    fires: &[Fire],
) -> Result<(), AllocError>
    ensures { OnOk result
        (page.new.items ≡ page.old.items ++ flat_map (event_text (shared heading.now)) fires.now) }
{
    for fire in fires {
        push_event(alloc, page, heading, fire)?;
    }
    Ok(())
}
