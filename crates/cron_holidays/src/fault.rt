//! Why a file isn't one of holidays.
ghost use Rattle.std.specs.Prelude.{Some};
ghost use Rattle.cron_holidays.specs.Messages.{fault_text, reason_text};

use std::alloc::{AllocError, AllocFailed};
use std::error::Error;
use std::fmt;

/// What is wrong with a line.
#[derive(Clone, Copy, Debug, PartialEq, Eq)]
pub enum Reason {
    /// It isn't a date, or the calendar doesn't have the date.
    NoDate,
    /// The date isn't from 1970-01-01 to 2100-12-31.
    OutOfRange,
    /// The start or the end of an event has a time of day.
    HasTime,
    /// An event has a second start or a second end.
    Twice,
    /// The end of an event, the first day after it, isn't after its start.
    NotAfterStart,
    /// An event has a duration.
    HasDuration,
    /// An event has a rule of repetition.
    Repeats,
    /// An event has no start. The line is the event's first.
    NoStart,
    /// Something other than a calendar's first line stands outside all calendars.
    OutsideCalendar,
    /// The end of another component stands here.
    OtherEnd,
    /// The file ends inside a component. The line is the component's first.
    NotClosed,
}

/// A line that is refused.
#[derive(Clone, Copy, Debug, PartialEq, Eq)]
pub struct Refused {
    /// The line's number. The first line of the file has number 1.
    pub line: usize,
    pub reason: Reason,
}

/// Why a file isn't one of holidays.
#[derive(Clone, Copy, Debug, PartialEq, Eq)]
pub enum HolidayFault {
    /// The first line that makes the file none.
    Refused(Refused),
    /// Memory ran out.
    OutOfMemory,
}

impl fmt::Display for Reason {
    ghost use Rattle.std.specs.Prelude.{Some};
    ghost use Rattle.cron_holidays.specs.Messages.{reason_text};

    ghost output = { λ r. Some (reason_text r) };

    fn fmt<W: fmt::Write>(&self, f: &mut fmt::Formatter<W>) -> fmt::Result {
        match self {
            Reason::NoDate => f.write_str("it is not a date"),
            Reason::OutOfRange => f.write_str("the date is not from 1970-01-01 to 2100-12-31"),
            Reason::HasTime => f.write_str("the event is not of whole days"),
            Reason::Twice => f.write_str("the event has this property already"),
            Reason::NotAfterStart => f.write_str("the event does not end after its start"),
            Reason::HasDuration => {
                f.write_str("durations are not read: DTEND says when an event ends")
            }
            Reason::Repeats => f.write_str("rules of repetition are not read"),
            Reason::NoStart => f.write_str("the event has no DTSTART"),
            Reason::OutsideCalendar => f.write_str("only a calendar can begin here"),
            Reason::OtherEnd => f.write_str("it ends another component than the open one"),
            Reason::NotClosed => f.write_str("the component is not ended"),
        }
    }
}

impl fmt::Display for HolidayFault {
    ghost use Rattle.std.specs.Prelude.{Some};
    ghost use Rattle.cron_holidays.specs.Messages.{fault_text};

    ghost output = { λ fault. Some (fault_text fault) };

    fn fmt<W: fmt::Write>(&self, f: &mut fmt::Formatter<W>) -> fmt::Result {
        match self {
            HolidayFault::Refused(Refused { line, reason }) => {
                write!(f, "line {line}: {reason}")
            }
            HolidayFault::OutOfMemory => f.write_str("out of memory"),
        }
    }
}

impl Error for HolidayFault {}

impl From<AllocError> for HolidayFault {
    ghost use Rattle.std.specs.Prelude.{◌≡◌};
    ghost use Rattle.cron_holidays.specs.declared.fault.HolidayFault.TheVariants.{OutOfMemory};

    ghost from_gives = { λ _ fault. fault ≡ OutOfMemory };

    fn from(_refused: AllocError) -> HolidayFault {
        HolidayFault::OutOfMemory
    }
}

impl<T: Drop> From<AllocFailed<T>> for HolidayFault {
    ghost use Rattle.std.specs.Prelude.{◌≡◌};
    ghost use Rattle.cron_holidays.specs.declared.fault.HolidayFault.TheVariants.{OutOfMemory};

    ghost from_gives = { λ _ fault. fault ≡ OutOfMemory };

    fn from(_refused: AllocFailed<T>) -> HolidayFault {
        HolidayFault::OutOfMemory
    }
}
