//! A schedule whose expression is written in the program.

ghost use Rattle.std.specs.Prelude.{◌≡◌, IfOk, IfErr};
ghost use Rattle.cron.specs.Words.{IsMemory};
ghost use Rattle.cron_callers.specs.Literals.{work_days, work_days_text};

use cron::Schedule;
use cron::error::Error;
use std::alloc::Global;

/// The schedule of half past nine from Monday to Friday. Its sets are known before it runs, and
/// lack of memory is its only error.
pub fn work_days(alloc: Global) -> Result<Schedule, Error>
    ensures sets { IfOk result (λ schedule. schedule.sets ≡ work_days) }
    ensures source { IfOk result (λ schedule. schedule.source ≡ work_days_text) }
    ensures refused { IfErr result IsMemory }
{
    Schedule::from_str(alloc, "0 30 9 * * Mon-Fri")
}
