//! Why the fires of entries can't be listed.

use std::error::Error;
use std::fmt;

/// Why the fires of entries can't be listed.
#[derive(Clone, Copy, Debug, PartialEq, Eq)]
pub enum FiresError {
    /// The entry in the line with this number fires in a zone that isn't among the zones of the
    /// call.
    NoZone(usize),
    /// Memory ran out.
    OutOfMemory,
}

impl fmt::Display for FiresError {
    ghost use Rattle.std.specs.Prelude.{Some};
    ghost use Rattle.cron_tab_fires.specs.Errors.{fires_error_text};

    ghost output = { λ error. Some (fires_error_text error) };

    fn fmt<W: fmt::Write>(&self, f: &mut fmt::Formatter<W>) -> fmt::Result {
        match self {
            FiresError::NoZone(line) => write!(f, "line {line}: its zone is not lent"),
            FiresError::OutOfMemory => f.write_str("out of memory"),
        }
    }
}

impl Error for FiresError {}
