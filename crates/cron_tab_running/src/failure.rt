//! Why a run ends early.

ghost use Rattle.std.specs.Prelude.{◌≡◌};
ghost use Rattle.cron_tab_running.specs.Running.{failure_of, outcome_of};

use cron_agenda_scheduler::AgendaStop;
use cron_printing::printer::WriteFailed;
use std::alloc::AllocError;

/// Why entries can't be added.
#[derive(Clone, Copy, Debug)]
pub(crate) enum LoadError {
    /// No zone has this number: the run got fewer zones.
    NoZone(usize),
    /// No id is left: 2^64 - 1 entries were added.
    NoIds,
    /// Memory ran out.
    OutOfMemory,
}

impl From<AllocError> for LoadError {
    ghost use Rattle.cron_tab_running.specs.declared.failure.LoadError.TheVariants.{OutOfMemory};

    ghost from_gives = { λ _ why. why ≡ OutOfMemory };

    fn from(_error: AllocError) -> LoadError {
        LoadError::OutOfMemory
    }
}

/// Why a run ended before its entries ended, or before the wanted number of runs.
#[derive(Debug, Drop)]
pub enum Failure<E> {
    /// Memory ran out for the entries, before the first of them was run.
    OutOfMemory,
    /// An entry needs the zone with this number, but the run got fewer zones. No entry was run.
    NoZone(usize),
    /// There are more entries than ids: 2^64 - 1. No entry was run.
    NoIds,
    /// The messages about refused lines couldn't be written. No entry was run.
    Untold,
    /// The clock or a write failed, or the run didn't get the zone of the next fire.
    Stopped(AgendaStop<E, WriteFailed>),
}

/// The failure of a run whose entries couldn't be added.
pub(crate) fn failure_of<E>(why: LoadError) -> Failure<E>
    ensures { result ≡ failure_of why }
{
    match why {
        LoadError::NoZone(zone) => Failure::NoZone(zone),
        LoadError::NoIds => Failure::NoIds,
        LoadError::OutOfMemory => Failure::OutOfMemory,
    }
}

/// The outcome of a run whose loop ended with `stopped`.
pub(crate) fn outcome_of<E>(
    stopped: Result<(), AgendaStop<E, WriteFailed>>,
) -> Result<(), Failure<E>>
    ensures { result ≡ outcome_of stopped }
{
    match stopped {
        Ok(()) => Ok(()),
        Err(stop) => Err(Failure::Stopped(stop)),
    }
}
