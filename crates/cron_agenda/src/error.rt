//! Why an entry can't be added, or why the next fire can't be removed.

use std::error::Error;
use std::fmt;

/// Why an entry can't be added.
#[derive(Clone, Copy, Debug, PartialEq, Eq)]
pub enum AddError {
    /// No zone with this number is lent.
    NoZone,
    /// The entry would never fire.
    NoFires,
    /// No id is left: 2^64 - 1 entries were added.
    NoIds,
    /// Memory ran out; or there are 2^30 slots, of entries and of some that are gone.
    OutOfMemory,
}

impl fmt::Display for AddError {
    ghost use Rattle.std.specs.Prelude.{Some};
    ghost use Rattle.cron_agenda.specs.Messages.{add_error_text};

    ghost output = { λ error. Some (add_error_text error) };

    fn fmt<W: fmt::Write>(&self, f: &mut fmt::Formatter<W>) -> fmt::Result {
        match self {
            AddError::NoZone => f.write_str("no zone with this number is lent"),
            AddError::NoFires => f.write_str("it would never fire"),
            AddError::NoIds => f.write_str("no id is left"),
            AddError::OutOfMemory => f.write_str("out of memory"),
        }
    }
}

impl Error for AddError {}

/// The zone of the entry that comes first isn't among those lent.
#[derive(Clone, Copy, Debug, PartialEq, Eq)]
pub struct ZoneMissing {
    /// The entry's id.
    pub id: u64,
}

impl fmt::Display for ZoneMissing {
    ghost use Rattle.std.specs.Prelude.{Some};
    ghost use Rattle.cron_agenda.specs.Messages.{zone_missing_text};

    ghost output = { λ _. Some zone_missing_text };

    fn fmt<W: fmt::Write>(&self, f: &mut fmt::Formatter<W>) -> fmt::Result {
        f.write_str("the zone of the entry that comes first is not lent")
    }
}

impl Error for ZoneMissing {}
