//! Laws over the definitions: the functions do nothing, and a caller calls one for what its
//! contract says. A turn is a wait, a reading of the clock, and what is done then. A deed is a fire
//! that was taken, and for which the job was run or that was passed over.

ghost use Rattle.std.specs.Prelude.{ℕ};
ghost use Rattle.cron_agenda_scheduler.specs.Late.{Tables};
ghost use Rattle.cron_agenda_scheduler.specs.EntryLaws.{EntryDeedsAreAllDue, EntryDeedsAreItsFires, EntryDeedsBeginThat, EntryFailureIsTaken, EntryTurnsAreAllDue, EntryTurnsAreItsFires, EntryTurnsBeginThat, KeepsEntry, OneAmongAll, RemovalCutsThat, StaysBesideOthers, StaysThroughout};
ghost use Rattle.cron_agenda_scheduler.specs.LateLaws.{AllAreByAge, AllAreRun, EachIsRun, LatestRunsNoOther, LatestRunsTheLast, WithinIsByAge};
ghost use Rattle.cron_agenda_scheduler.specs.Laws.{CutTurnIsTaken, DeedsAreAllDue, DeedsAreTaken, OneEntryTakesItsFires, RunsThatMeetAreOne, TurnsAreTaken, WhatWasTaken, RestartedAnywhereIsOne, RestartedRunsAreOne};
ghost use Rattle.cron_agenda_scheduler.specs.PlanLaws.{LoopIsAPlansRun, NoneIsCut, OneEntryHasAPlansFires};
ghost use Rattle.cron_agenda_scheduler.specs.Turns.{job_calls};
ghost use Rattle.cron_scheduler.specs.Runs.{clock_calls};

use crate::job::AgendaJob;
use cron_fires::CivilSeconds;
use cron_scheduler::AlarmClock;

/// Let the job leave the agenda unchanged. Then the fires that were run or passed over at one
/// reading of the clock are those that were due, in order, each once. `cron_agenda::laws::cut_runs`
/// describes what is left after them.
pub fn what_is_due<T: CivilSeconds, C: AlarmClock, J: AgendaJob<T>>()
    ensures taken { (ts : Tables T) → DeedsAreTaken ts (job_calls J.runs J.passes) }
    ensures due { (ts : Tables T) → DeedsAreAllDue ts (job_calls J.runs J.passes) C.Error }
{}

/// What `what_is_due` says of one reading of the clock holds for all turns of a run. A run that is
/// cut, and begun anew with what each entry has left, takes the fires that an uncut run takes. So
/// does a run that goes on after a restart, fire for fire. For that, each entry is added anew past
/// the last of its fires that was run or passed over. `cron_agenda::laws::restart_of_all` describes
/// how. The fires taken of a single entry are its own fires in order, the same as in a `Plan`.
pub fn whole_runs<T: CivilSeconds, C: AlarmClock, J: AgendaJob<T>>()
    ensures taken { (ts : Tables T)
        → TurnsAreTaken ts (clock_calls C.shows C.waits) (job_calls J.runs J.passes) }
    ensures meet { (ts : Tables T)
        → RunsThatMeetAreOne ts (clock_calls C.shows C.waits) (job_calls J.runs J.passes) }
    ensures restart { (ts : Tables T)
        → RestartedRunsAreOne ts (clock_calls C.shows C.waits) (job_calls J.runs J.passes) }
    ensures one { (ts : Tables T)
        → OneEntryTakesItsFires ts (clock_calls C.shows C.waits) (job_calls J.runs J.passes) }
{}

/// A `Plan` is the case of one entry. An entry that is added alone has a plan's fires. A run of the
/// loop over it is a run of the plan: the same calls of clock and job, in the same order. That
/// holds if each fire is run however late, and the job leaves the agenda unchanged. With `u64::MAX`
/// runs no fire is left out.
pub fn one_entry_is_a_plan<T: CivilSeconds, C: AlarmClock, J: AgendaJob<T>>()
    ensures fires { OneEntryHasAPlansFires T.has }
    ensures all { NoneIsCut T.has }
    ensures runs { (ts : Tables T)
        → LoopIsAPlansRun ts (clock_calls C.shows C.waits) (job_calls J.runs J.passes) }
{}

/// A run may be cut by a failing clock, a failing job or a missing zone. If the job leaves the
/// agenda unchanged, the run has taken fires one after another, and so can be continued. First come
/// the fires of its whole turns, then those of the deeds of the cut turn, then the fire that the
/// job failed for. `cron_agenda::laws::cut_runs` describes what is left after them. A run goes on
/// as the uncut one, fire for fire, if each entry is added anew past the last of its own among
/// these fires.
pub fn cut_anywhere<T: CivilSeconds, C: AlarmClock, J: AgendaJob<T>>()
    ensures turn { (ts : Tables T)
        → CutTurnIsTaken ts (clock_calls C.shows C.waits) (job_calls J.runs J.passes) }
    ensures runs { (ts : Tables T)
        → WhatWasTaken ts (clock_calls C.shows C.waits) (job_calls J.runs J.passes) }
    ensures restart { (ts : Tables T)
        → RestartedAnywhereIsOne ts (clock_calls C.shows C.waits) (job_calls J.runs J.passes) }
{}

/// An entry may stay while the job adds and removes others. Then its fires that were run or passed
/// over are exactly those that were due, in order, each once. However a turn ends, they are a front
/// of what was due. A fire that the job failed for was taken too. Over whole turns they are what
/// was due at the greatest time that the clock showed. An entry that was removed fires no more: if
/// the job may remove it, its fires too are a front of what was due.
pub fn one_entry<T: CivilSeconds, C: AlarmClock, J: AgendaJob<T>>()
    ensures among { (ts : Tables T) (id : ℕ) → OneAmongAll ts id }
    ensures taken { (ts : Tables T) (id : ℕ)
        → EntryDeedsAreItsFires ts (job_calls J.runs J.passes) id }
    ensures failed { (ts : Tables T) (id : ℕ)
        → EntryFailureIsTaken ts (job_calls J.runs J.passes) id C.Error }
    ensures due { (ts : Tables T) (id : ℕ)
        → EntryDeedsAreAllDue ts (job_calls J.runs J.passes) id C.Error }
    ensures begins { (ts : Tables T) (id : ℕ)
        → EntryDeedsBeginThat ts (job_calls J.runs J.passes) id }
    ensures turns { (ts : Tables T) (id : ℕ)
        → EntryTurnsAreItsFires ts (clock_calls C.shows C.waits) (job_calls J.runs J.passes) id }
    ensures turns_begin { (ts : Tables T) (id : ℕ)
        → EntryTurnsBeginThat ts (clock_calls C.shows C.waits) (job_calls J.runs J.passes) id }
    ensures turns_due { (ts : Tables T) (id : ℕ)
        → EntryTurnsAreAllDue ts (clock_calls C.shows C.waits) (job_calls J.runs J.passes) id }
    ensures removed { (ts : Tables T) (id : ℕ)
        → RemovalCutsThat ts (job_calls J.runs J.passes) id }
{}

/// An entry stays unchanged while others are added and removed, and once it is removed it isn't
/// there. If a job's runs only add and remove others, the entry stays over turns and whole runs,
/// and so `one_entry` applies to it.
pub fn entry_stays<T: CivilSeconds, C: AlarmClock, J: AgendaJob<T>>()
    ensures beside { (id : ℕ) → StaysBesideOthers T.has id }
    ensures throughout { (ts : Tables T) (id : ℕ) → KeepsEntry id (job_calls J.runs J.passes)
        → StaysThroughout ts (clock_calls C.shows C.waits) (job_calls J.runs J.passes) id }
{}

/// The lateness of an entry that stays decides which of its fires are run in a turn, whatever other
/// entries have. `Each` runs all of them. `Within` runs those that are no older. `Latest` runs the
/// last one if nothing that is due is left, and else none. The others are passed over. If all
/// tables have `Each`, or all have the same `Within`, this holds for all entries, whatever the job
/// does to them.
pub fn lateness_is_kept<T: CivilSeconds, C: AlarmClock, J: AgendaJob<T>>()
    ensures each { (ts : Tables T) (id : ℕ) → EachIsRun ts (job_calls J.runs J.passes) id }
    ensures within { (ts : Tables T) (id : ℕ) → WithinIsByAge ts (job_calls J.runs J.passes) id }
    ensures latest { (ts : Tables T) (id : ℕ)
        → LatestRunsTheLast ts (job_calls J.runs J.passes) id C.Error }
    ensures no_other { (ts : Tables T) (id : ℕ)
        → LatestRunsNoOther ts (job_calls J.runs J.passes) id }
    ensures all_each { (ts : Tables T) → AllAreRun ts (job_calls J.runs J.passes) }
    ensures all_within { (ts : Tables T) → AllAreByAge ts (job_calls J.runs J.passes) }
{}
