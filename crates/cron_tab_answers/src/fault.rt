//! Why a list ends early.

use cron_agenda::ZoneMissing;
use std::error::Error;
use std::fmt;

/// Why a list ends before all requested fires are listed.
#[derive(Clone, Copy, Debug, PartialEq, Eq)]
pub enum ListFault {
    /// The zone of the entry that fires next isn't among the zones.
    Zone(ZoneMissing),
    /// The entry that fires next has no source, which is its file and its command.
    Source,
    /// `strftime` refuses the format of times.
    Format,
    /// Memory ran out.
    OutOfMemory,
}

impl fmt::Display for ListFault {
    ghost use Rattle.std.specs.Prelude.{Some};
    ghost use Rattle.cron_tab_answers.specs.Faults.{fault_text};

    ghost output = { λ fault. Some (fault_text fault) };

    fn fmt<W: fmt::Write>(&self, f: &mut fmt::Formatter<W>) -> fmt::Result {
        match self {
            ListFault::Zone(missing) => write!(f, "{missing}"),
            ListFault::Source => f.write_str("the source of the entry that comes first is lacking"),
            ListFault::Format => f.write_str("strftime refuses the format of times"),
            ListFault::OutOfMemory => f.write_str("out of memory"),
        }
    }
}

impl Error for ListFault {}
