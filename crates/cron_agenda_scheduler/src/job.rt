//! What is run for each fire of an agenda.

ghost use Rattle.std.specs.Prelude.{⊤, Result};
ghost use Rattle.cron_agenda.specs.Entries.{Listed};
ghost use Rattle.cron_agenda.specs.declared.fire.AgendaFire.{AgendaFire};

use cron_agenda::{Agenda, AgendaFire};
use cron_fires::CivilSeconds;

/// What is run for each fire of an agenda. `T` is the type of its entries' tables, which are sets
/// of civil seconds.
pub trait AgendaJob<T: CivilSeconds> {
    /// Why the job failed, which ends a step.
    type Error;

    // one run: the job and the agenda before it, the fire, the answer, and both after it
    ghost runs: { Self → AgendaFire → Listed T → Result ⊤ Self.Error → Self → Listed T
        → Type 0 } = { λ _ _ _ _ _ _. Unit {0} };

    // one call for a fire that is passed over: the job before it, the fire, and the job after it
    ghost passes: { Self → AgendaFire → Self → Type 0 } = { λ _ _ _. Unit {0} };

    /// Runs the job for `due`, which was taken from the agenda. It may add and remove entries.
    fn run(&mut self, due: AgendaFire, agenda: &mut Agenda<T>) -> Result<(), Self::Error>
        ensures { runs self.old due agenda.old result self.new agenda.new };

    /// Is called with a fire that was taken and is passed over, since it is too late for its entry.
    fn pass_over(&mut self, due: AgendaFire)
        ensures { passes self.old due self.new };
}
