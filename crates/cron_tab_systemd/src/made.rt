//! What is made of entries.

use cron_systemd::UnitError;
use jiff::civil::Date;
use std::alloc::AllocError;
use std::fmt;

/// Why an entry has no units.
#[derive(Clone, Copy, Debug, PartialEq, Eq)]
pub enum Unsaid {
    /// It is `@reboot`.
    Reboot,
    /// It never fires.
    Never,
    /// Its zone is a rule, a path or a name that `OnCalendar` doesn't take.
    Zone,
    /// There is no timer for this.
    Timer(UnitError),
    /// There is no service for this.
    Service(UnitError),
}

impl fmt::Display for Unsaid {
    ghost use Rattle.std.specs.Prelude.{Some};
    ghost use Rattle.cron_tab_systemd.specs.Messages.{unsaid_text};

    ghost output = { λ why. Some (unsaid_text why) };

    fn fmt<W: fmt::Write>(&self, f: &mut fmt::Formatter<W>) -> fmt::Result {
        match self {
            Unsaid::Reboot => f.write_str("OnCalendar has no line for @reboot"),
            Unsaid::Never => f.write_str("it never fires, and OnCalendar has no line for that"),
            Unsaid::Zone => f.write_str(
                "OnCalendar takes no such zone: it is UTC, or a name without a dot",
            ),
            Unsaid::Timer(error) | Unsaid::Service(error) => write!(f, "{error}"),
        }
    }
}

/// The units of an entry, as texts.
#[derive(Drop)]
pub struct Units {
    pub timer: Vec<u8>,
    pub service: Vec<u8>,
}

/// What is made of an entry, or what there is to say of it.
#[derive(Drop)]
pub enum Made {
    /// The units of the entry.
    Units(Units),
    /// A day of the year to come on which the clock skips a fixed time of the entry. cron runs the
    /// entry for it, and systemd doesn't.
    Skips(Date),
    /// The entry has no units.
    LeftOut(Unsaid),
}

/// What is made of the entry of a line.
#[derive(Drop)]
pub struct LineMade {
    /// The number of the line, from 1 on.
    pub line: usize,
    pub made: Made,
}

/// Why there are no units.
#[derive(Clone, Copy)]
pub(crate) enum Fault {
    /// The entry can't be said.
    Unsaid(Unsaid),
    /// Memory ran out.
    OutOfMemory,
}

impl From<AllocError> for Fault {
    ghost use Rattle.std.specs.Prelude.{◌≡◌};
    ghost use Rattle.cron_tab_systemd.specs.declared.made.Fault.TheVariants.{OutOfMemory};

    ghost from_gives = { λ _ why. why ≡ OutOfMemory };

    fn from(_error: AllocError) -> Fault {
        Fault::OutOfMemory
    }
}
