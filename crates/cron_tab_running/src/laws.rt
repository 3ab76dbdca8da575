//! Laws over the definitions: the functions do nothing, and a caller calls one for what its
//! contract says.

ghost use Rattle.cron_agenda_scheduler.specs.Late.{Tables};
ghost use Rattle.cron_agenda_scheduler.specs.Turns.{job_calls};
ghost use Rattle.cron_tab_running.specs.Clocks.{Shows, Waits};
ghost use Rattle.cron_tab_running.specs.Laws.{NotesAreTrue, NotesLoseNothing};
ghost use Rattle.cron_scheduler.specs.Runs.{clock_calls};

use crate::run_clock::Changing;
use cron_agenda_scheduler::AgendaJob;
use cron_fires::CivilSeconds;
use cron_notes::store::Store;
use cron_scheduler::AlarmClock;

/// An entry that was run up to an instant, and goes on after it, loses no fire and has none twice.
pub fn notes_lose_nothing()
    ensures { NotesLoseNothing }
{}

/// At each note of a run, all fires of its entries up to the noted instant were taken, if the job
/// leaves the agenda unchanged.
pub fn notes_are_true<T: CivilSeconds, C: AlarmClock, F: Changing, S: Store, J: AgendaJob<T>>()
    ensures { (ts : Tables T) → NotesAreTrue ts
        (clock_calls (Shows C.shows) (Waits C.shows C.waits F.changes S.does)) (job_calls J.runs J.passes) }
{}
