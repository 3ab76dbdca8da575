//! Why the lines of a file aren't all added, and why fires aren't all listed.

use cron_agenda::{AddError, ZoneMissing};
use std::error::Error;
use std::fmt;

/// Why the lines of a file weren't all added, with the number of the line, from 1 on.
#[derive(Clone, Copy, Debug, PartialEq, Eq)]
pub enum LineError {
    /// The line sets `CRON_TZ` to none of the given names.
    ZoneLine(usize),
    /// The line's entry can't be added.
    NotAdded(usize, AddError),
}

impl fmt::Display for LineError {
    ghost use Rattle.std.specs.Prelude.{Some};
    ghost use Rattle.cron_tab_agenda.specs.Messages.{line_error_text};

    ghost output = { λ error. Some (line_error_text error) };

    fn fmt<W: fmt::Write>(&self, f: &mut fmt::Formatter<W>) -> fmt::Result {
        match self {
            LineError::ZoneLine(line) => { write!(f, "line {line}: CRON_TZ is none of the zones") }
            LineError::NotAdded(line, error) => write!(f, "line {line}: {error}"),
        }
    }
}

impl Error for LineError {}

/// Why fires couldn't be listed, or no further ones.
#[derive(Clone, Copy, Debug, PartialEq, Eq)]
pub enum ListError {
    /// The zone of the entry that fires next isn't among the zones of the call.
    Zone(ZoneMissing),
    /// Memory ran out.
    OutOfMemory,
}

impl fmt::Display for ListError {
    ghost use Rattle.std.specs.Prelude.{Some};
    ghost use Rattle.cron_tab_agenda.specs.Messages.{list_error_text};

    ghost output = { λ error. Some (list_error_text error) };

    fn fmt<W: fmt::Write>(&self, f: &mut fmt::Formatter<W>) -> fmt::Result {
        match self {
            ListError::Zone(missing) => write!(f, "{missing}"),
            ListError::OutOfMemory => f.write_str("out of memory"),
        }
    }
}

impl Error for ListError {}
