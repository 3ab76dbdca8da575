//! Events of iCalendar files, and their days.
ghost use Rattle.std.specs.Prelude.{◌≡◌, ◌+◌, ◌-◌, ◌++◌, ◌≤◌, unwrap_or, Ok, Err, MatchResult, OnOk};
ghost use Rattle.cron_holidays.specs.Events.{begun, days_between, in_order, is_turned, whole_day, with_end, with_event_days, with_property, with_start};
ghost use Rattle.cron_holidays.specs.Faults.{Refuses};

use crate::dates::day_of_digits;
use crate::fault::{HolidayFault, Reason, Refused};
use crate::properties::{Property, is_word};
use cron_moments::civil::DAYS;
use std::alloc::AllocFailed;

/// What the properties of an event say.
#[derive(Clone, Copy)]
pub(crate) struct Event {
    /// The number of the line that begins the event.
    pub(crate) line: usize,
    /// The number of the first day.
    pub(crate) start: Option<u16>,
    /// The number of the first day after the event.
    pub(crate) end: Option<u16>,
    pub(crate) cancelled: bool,
}

/// The event that begins on this line.
pub(crate) fn begun(line: usize) -> Event
    ensures { result ≡ begun line }
{
    Event {
        line,
        start: None,
        end: None,
        cancelled: false,
    }
}

/// Reads a whole day, whose number must be less than `end`.
fn whole_day(end: u16, value: &[u8]) -> Result<u16, Reason>
    ensures { MatchResult result
        (λ day. whole_day end value.now ≡ Ok day)
        (λ reason. whole_day end value.now ≡ Err reason) }
{
    if value.len() > 8 && value[8] == b'T' {
        return Err(Reason::HasTime);
    }
    day_of_digits(end, value)
}

fn is_turned(start: Option<u16>, end: Option<u16>) -> bool
    ensures { result ≡ is_turned start end }
{
    match (start, end) {
        (Some(start), Some(end)) => end <= start,
        _ => false,
    }
}

fn in_order(event: Event) -> Result<Event, Reason>
    ensures { MatchResult result
        (λ e. in_order event ≡ Ok e) (λ reason. in_order event ≡ Err reason) }
{
    if is_turned(event.start, event.end) {
        return Err(Reason::NotAfterStart);
    }
    Ok(event)
}

fn with_start(event: Event, value: &[u8]) -> Result<Event, Reason>
    ensures { MatchResult result
        (λ e. with_start event value.now ≡ Ok e)
        (λ reason. with_start event value.now ≡ Err reason) }
{
    if event.start.is_some() {
        return Err(Reason::Twice);
    }
    match whole_day(DAYS as u16, value) {
        Ok(day) => in_order(Event {
            start: Some(day),
            ..event
        }),
        Err(reason) => Err(reason),
    }
}

fn with_end(event: Event, value: &[u8]) -> Result<Event, Reason>
    ensures { MatchResult result
        (λ e. with_end event value.now ≡ Ok e)
        (λ reason. with_end event value.now ≡ Err reason) }
{
    if event.end.is_some() {
        return Err(Reason::Twice);
    }
    match whole_day(DAYS as u16 + 1, value) {
        Ok(day) => in_order(Event {
            end: Some(day),
            ..event
        }),
        Err(reason) => Err(reason),
    }
}

/// An event with one more property.
pub(crate) fn with_property(event: Event, property: Property, value: &[u8]) -> Result<Event, Reason>
    ensures { MatchResult result
        (λ e. with_property event property value.now ≡ Ok e)
        (λ reason. with_property event property value.now ≡ Err reason) }
{
    match property {
        Property::DtStart => with_start(event, value),
        Property::DtEnd => with_end(event, value),
        Property::Status => Ok(Event {
            cancelled: event.cancelled || is_word(value, b"CANCELLED".as_slice()),
            ..event
        }),
        Property::Duration => Err(Reason::HasDuration),
        Property::Repeats => Err(Reason::Repeats),
        Property::Unread => Ok(event),
    }
}

/// How many days an event has: those from its start to its end, or one without an end.
fn count_of(start: u16, end: Option<u16>) -> u32
    ensures is { result ≡ unwrap_or end (start + 1) - start }
    ensures bound { start + result ≤ 65536 }
{
    match end {
        Some(end) => u32::from(end.saturating_sub(start)),
        None => 1,
    }
}

/// Appends the days from `start` to `end`, which isn't one of them.
#[tactic(auto, using(crate::proofs::EventLemmas::more_days))]
fn push_between(days: &mut Vec<u16>, start: u16, end: Option<u16>) -> Result<(), AllocFailed<u16>>
    ensures { OnOk result (days.new.items ≡ days.old.items ++ days_between start end) }
{
    for place in 0..count_of(start, end) {
        days.push((u32::from(start) + place) as u16)?;
    }
    Ok(())
}

/// Appends the days of an event.
pub(crate) fn push_days(days: &mut Vec<u16>, event: &Event) -> Result<(), HolidayFault>
    ensures { MatchResult result
        (λ _. with_event_days days.old.items event.now ≡ Ok days.new.items)
        (Refuses (with_event_days days.old.items event.now)) }
{
    let Some(start) = event.start else {
        return Err(HolidayFault::Refused(Refused {
            line: event.line,
            reason: Reason::NoStart,
        }));
    };
    if event.cancelled {
        return Ok(());
    }
    match push_between(days, start, event.end) {
        Ok(()) => Ok(()),
        Err(_) => Err(HolidayFault::OutOfMemory),
    }
}
