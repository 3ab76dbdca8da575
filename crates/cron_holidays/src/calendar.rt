//! iCalendar files: the days of their events.
ghost use Rattle.std.specs.Prelude.{◌≡◌, ◌<◌, ◌≤◌, Ok, Err, IfOk, MatchResult, drop, length, map};
ghost use Rattle.cron_holidays.specs.Calendars.{calendar_days, can_begin, ended, event_at, innermost, is_event, with_begin, with_content, with_contents, with_end_of, with_other};
ghost use Rattle.cron_holidays.specs.Contents.{unfolded};
ghost use Rattle.cron_holidays.specs.Faults.{Refuses};
ghost use Rattle.cron_holidays.specs.declared.fault.HolidayFault.TheVariants.{Refused as OfLine};
ghost use Rattle.cron_holidays.specs.Views.{line_view, reading_view};

use crate::contents::{more_len, whole_text};
use crate::event::{Event, begun, push_days, with_property};
use crate::fault::{HolidayFault, Reason, Refused};
use crate::lines::Line;
use crate::properties::{Kind, Property, is_word, kind_of, name_of, value_of};
use std::alloc::Global;

/// A component that is open.
#[derive(Drop)]
pub(crate) struct Open {
    /// The number of the line that begins it.
    pub(crate) line: usize,
    pub(crate) name: Vec<u8>,
}

/// What was read of a file.
#[derive(Drop)]
pub(crate) struct Reading {
    /// The components that are open, the outermost first.
    pub(crate) open_ones: Vec<Open>,
    /// The event, where one is open.
    pub(crate) event: Event,
    /// The days of the events that have ended.
    pub(crate) days: Vec<u16>,
}

/// The fault of a line.
fn refused(line: usize, reason: Reason) -> HolidayFault
    ensures { result ≡ OfLine (record { line = line; reason = reason }) }
{
    HolidayFault::Refused(Refused { line, reason })
}

/// Returns true if a component with this name can begin in so many others.
fn can_begin(depth: usize, name: &[u8]) -> bool
    ensures { result ≡ can_begin depth name.now }
{
    depth != 0 || is_word(name, b"VCALENDAR".as_slice())
}

/// Returns true if the innermost of so many components, with this name, is an event directly in a
/// calendar.
fn is_event(depth: usize, name: &[u8]) -> bool
    ensures { result ≡ is_event depth name.now }
{
    depth == 2 && is_word(name, b"VEVENT".as_slice())
}

/// The event, where a component begins in so many others.
fn event_at(depth: usize, event: Event, line: usize) -> Event
    ensures { result ≡ event_at depth event line }
{
    if depth == 1 { begun(line) } else { event }
}

impl Reading {
    fn begin(&mut self, alloc: Global, line: usize, name: &[u8]) -> Result<(), HolidayFault>
        ensures { MatchResult result
            (λ _. with_begin (reading_view self.old) line name.now ≡ Ok (reading_view self.new))
            (Refuses (with_begin (reading_view self.old) line name.now)) }
    {
        let depth = self.open_ones.len();
        if !can_begin(depth, name) {
            return Err(refused(line, Reason::OutsideCalendar));
        }
        let name = Vec::from_slice(alloc, name)?;
        self.open_ones.push(Open { line, name })?;
        self.event = event_at(depth, self.event, line);
        Ok(())
    }

    fn end(&mut self, line: usize, name: &[u8]) -> Result<(), HolidayFault>
        ensures { MatchResult result
            (λ _. with_end_of (reading_view self.old)
            (innermost (reading_view self.old).open_ones) line name.now
            ≡ Ok (reading_view self.new))
            (Refuses (with_end_of (reading_view self.old)
            (innermost (reading_view self.old).open_ones) line name.now)) }
    {
        let depth = self.open_ones.len();
        let Some(one) = self.open_ones.pop() else {
            return Err(refused(line, Reason::OutsideCalendar));
        };
        if !is_word(name, &one.name) {
            return Err(refused(line, Reason::OtherEnd));
        }
        if !is_event(depth, &one.name) {
            return Ok(());
        }
        match push_days(&mut self.days, &self.event) {
            Ok(()) => Ok(()),
            Err(fault) => Err(fault),
        }
    }

    fn other(&mut self, line: usize, property: Property, value: &[u8]) -> Result<(), HolidayFault>
        ensures { MatchResult result
            (λ _. with_other (reading_view self.old)
            (innermost (reading_view self.old).open_ones) line property value.now
            ≡ Ok (reading_view self.new))
            (Refuses (with_other (reading_view self.old)
            (innermost (reading_view self.old).open_ones) line property value.now)) }
    {
        let Some(one) = self.open_ones.last() else {
            return Err(refused(line, Reason::OutsideCalendar));
        };
        if !is_event(self.open_ones.len(), &one.name) {
            return Ok(());
        }
        match with_property(self.event, property, value) {
            Ok(event) => {
                self.event = event;
                Ok(())
            }
            Err(reason) => Err(refused(line, reason)),
        }
    }

    fn content(&mut self, alloc: Global, line: usize, text: &[u8]) -> Result<(), HolidayFault>
        ensures { MatchResult result
            (λ _. with_content (reading_view self.old)
            (record { number = line; text = text.now })
            ≡ Ok (reading_view self.new))
            (Refuses (with_content (reading_view self.old)
            (record { number = line; text = text.now }))) }
    {
        let value = value_of(text);
        match kind_of(name_of(text)) {
            Kind::Begin => self.begin(alloc, line, value),
            Kind::End => self.end(line, value),
            Kind::Other(property) => self.other(line, property, value),
        }
    }

    /// Reads the first line, with those that continue it, and returns how many these are.
    fn first_of(&mut self, alloc: Global, lines: &[Line<'_>]) -> Result<usize, HolidayFault>
        ensures reads { MatchResult result
            (λ n. with_contents (reading_view self.old) (unfolded (map line_view lines.now))
            ≡ with_contents (reading_view self.new) (unfolded (map line_view (drop n lines.now))))
            (Refuses (with_contents (reading_view self.old)
            (unfolded (map line_view lines.now)))) }
        ensures within { IfOk result (λ n. n ≤ length lines.now) }
        ensures some { IfOk result (λ n. 0 < length lines.now → 0 < n) }
    {
        let Some((first, more)) = lines.split_first() else {
            return Ok(0);
        };
        let end = more_len(more);
        let text = whole_text(alloc, first.text, &more[..end])?;
        self.content(alloc, first.number, &text)?;
        Ok(end + 1)
    }

    fn ended(self) -> Result<Vec<u16>, HolidayFault>
        ensures { MatchResult result
            (λ days. ended (reading_view self) ≡ Ok days.items)
            (Refuses (ended (reading_view self))) }
    {
        let Reading {
            open_ones,
            days,
            ..
        } = self;
        match open_ones.last() {
            Some(one) => Err(refused(one.line, Reason::NotClosed)),
            None => Ok(days),
        }
    }
}

/// Reads an iCalendar file into the numbers of days since 1970-01-01.
pub(crate) fn calendar_days(alloc: Global, lines: &[Line<'_>]) -> Result<Vec<u16>, HolidayFault>
    ensures { MatchResult result
        (λ days. calendar_days (map line_view lines.now) ≡ Ok days.items)
        (Refuses (calendar_days (map line_view lines.now))) }
{
    let mut reading = Reading {
        open_ones: Vec::new(alloc),
        event: begun(0),
        days: Vec::new(alloc),
    };
    let mut rest = lines;
    while !rest.is_empty() {
        let count = reading.first_of(alloc, rest)?;
        rest = &rest[count..];
    }
    reading.ended()
}
