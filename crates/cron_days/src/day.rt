//! Days by their numbers, and why a date or a number can't make a rule.
ghost use Rattle.std.specs.Prelude.{◌≡◌, ℕ, pos, ◌<◌, MatchResult};
ghost use Rattle.jiff_core.specs.Date.{epoch_day};
ghost use Rattle.cron_moments.specs.Civil.{days_in_range};
ghost use Rattle.cron_days.specs.Refusals.{IsOutside};
ghost use Rattle.cron_days.specs.declared.day.RuleError.TheVariants.{OutOfRange};

use cron_moments::civil::DAYS;
use jiff::civil::Date;
use std::alloc::{AllocError, AllocFailed};
use std::error::Error;
use std::fmt;

/// Why a rule can't be made.
#[derive(Clone, Copy, Debug, PartialEq, Eq)]
pub enum RuleError {
    /// This date isn't from 1970 to 2100.
    OutOfRange(Date),
    /// A rule can't allow one day, week or month in so many: the number isn't from 1 to 10,000.
    NoCount(u32),
    /// The first date comes after the last one.
    Turned { first: Date, last: Date },
    /// Memory ran out.
    OutOfMemory,
}

impl fmt::Display for RuleError {
    fn fmt<W: fmt::Write>(&self, f: &mut fmt::Formatter<W>) -> fmt::Result {
        match self {
            RuleError::OutOfRange(date) => {
                write!(f, "{date} isn't from 1970-01-01 to 2100-12-31")
            }
            RuleError::NoCount(count) => write!(f, "{count} isn't from 1 to 10000"),
            RuleError::Turned { first, last } => write!(f, "{first} comes after {last}"),
            RuleError::OutOfMemory => f.write_str("out of memory"),
        }
    }
}

impl Error for RuleError {}

impl From<AllocError> for RuleError {
    ghost use Rattle.std.specs.Prelude.{◌≡◌};
    ghost use Rattle.cron_days.specs.declared.day.RuleError.TheVariants.{OutOfMemory};

    ghost from_gives = { λ _ error. error ≡ OutOfMemory };

    fn from(_refused: AllocError) -> RuleError {
        RuleError::OutOfMemory
    }
}

impl<T: Drop> From<AllocFailed<T>> for RuleError {
    ghost use Rattle.std.specs.Prelude.{◌≡◌};
    ghost use Rattle.cron_days.specs.declared.day.RuleError.TheVariants.{OutOfMemory};

    ghost from_gives = { λ _ error. error ≡ OutOfMemory };

    fn from(_refused: AllocFailed<T>) -> RuleError {
        RuleError::OutOfMemory
    }
}

/// How many days after 1970-01-01 the date is.
pub fn number_of(date: Date) -> Result<u32, RuleError>
    ensures { MatchResult result
        (λ n. (epoch_day date ≡ pos n) × (n < days_in_range))
        (λ error. (error ≡ OutOfRange date) × IsOutside date) }
{
    let number = date.to_plain().to_unix_epoch_day();
    if number < 0 || number >= DAYS as i32 {
        return Err(RuleError::OutOfRange(date));
    }
    Ok(number as u32)
}
