//! Laws that connect the terms of a run's contract to the fires of a table, which is a set of civil
//! seconds. They are for proofs: the functions do nothing.

ghost use Rattle.cron_scheduler.specs.Laws.{DueUpToTheGreatest, RestartsGoOn};

use cron_fires::Fire;

/// What is due of a list of fires, such as a plan's, is every fire up to and including the greatest
/// time that the clock showed.
pub fn due_up_to_the_greatest<F: Fire>()
    ensures { DueUpToTheGreatest F.at }
{}

/// The fires that follow a fire of a plan without a limit are exactly the plan's fires after it. So
/// a run that begins past that fire goes on: nothing is run twice, nothing is lost.
pub fn restarts_go_on<F: Fire>()
    ensures { RestartsGoOn F.after F.past }
{
    F::go_on_past();
}
