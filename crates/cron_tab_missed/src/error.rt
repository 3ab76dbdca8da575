//! Why it can't be told what entries missed.

ghost use Rattle.std.specs.Prelude.{◌≡◌};

use std::alloc::AllocError;
use std::error::Error;
use std::fmt;

/// Why it can't be told what entries missed.
#[derive(Clone, Copy, Debug, PartialEq, Eq)]
pub enum MissedError {
    /// The entry in the line with this number fires in a zone that isn't among the zones of the
    /// call.
    NoZone(usize),
    /// Memory ran out.
    OutOfMemory,
}

impl fmt::Display for MissedError {
    ghost use Rattle.std.specs.Prelude.{Some};
    ghost use Rattle.cron_tab_missed.specs.Errors.{missed_error_text};

    ghost output = { λ error. Some (missed_error_text error) };

    fn fmt<W: fmt::Write>(&self, f: &mut fmt::Formatter<W>) -> fmt::Result {
        match self {
            MissedError::NoZone(line) => write!(f, "line {line}: its zone is not lent"),
            MissedError::OutOfMemory => f.write_str("out of memory"),
        }
    }
}

impl Error for MissedError {}

impl From<AllocError> for MissedError {
    ghost use Rattle.cron_tab_missed.specs.declared.error.MissedError.TheVariants.{OutOfMemory};

    ghost from_gives = { λ _ why. why ≡ OutOfMemory };

    fn from(_error: AllocError) -> MissedError {
        MissedError::OutOfMemory
    }
}
