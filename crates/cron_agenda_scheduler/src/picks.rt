//! The next fire that is due, with the decision whether it is run.

ghost use Rattle.std.specs.Prelude.{◌≡◌, map};
ghost use Rattle.jiff.specs.Words.{plain_zone};
ghost use Rattle.cron_agenda_scheduler.specs.Late as late;
ghost use Rattle.cron_agenda_scheduler.specs.Inner.Picks.{Picks};

use crate::lateness::{HasLateness, Lateness};
use cron_agenda::{Agenda, AgendaFire, EntryFire, ZoneMissing};
use cron_fires::CivilSeconds;
use jiff::Timestamp;
use jiff::tz::TimeZone;

/// A fire that was taken, and whether it is run.
#[derive(Clone, Copy)]
pub(crate) struct Pick {
    pub(crate) due: AgendaFire,
    pub(crate) is_run: bool,
}

// Returns true if `now` is at most `seconds` after the instant of `fire`.
fn is_within(seconds: u64, now: Timestamp, fire: &EntryFire) -> bool
    ensures { result ≡ late.is_within seconds now.nanosecond fire.now }
{
    let age = now.as_nanosecond() - fire.timestamp().as_nanosecond();
    age <= i128::from(seconds) * 1_000_000_000
}

// Returns true if the entry `id` has another fire due at `now`.
fn has_due<T: CivilSeconds + Copy>(agenda: &Agenda<T>, now: Timestamp, id: u64) -> bool
    ensures { result ≡ late.has_due now.nanosecond id agenda.now.entries }
{
    // the contract of `len` says that the ids ascend
    let _count = agenda.len();
    match agenda.get(id) {
        Some(entry) => entry.fire.timestamp().as_nanosecond() <= now.as_nanosecond(),
        None => false,
    }
}

// Returns true if `due`, which was taken from `agenda`, is to be run by the `lateness` of its
// entry.
fn is_run<T: CivilSeconds + Copy>(
    lateness: Lateness,
    now: Timestamp,
    due: &AgendaFire,
    agenda: &Agenda<T>,
) -> bool
    ensures { result ≡ late.is_run lateness now.nanosecond due.now agenda.now.entries }
{
    match lateness {
        Lateness::Each => true,
        Lateness::Within(seconds) => is_within(seconds, now, &due.fire),
        Lateness::Latest => !has_due(agenda, now, due.id),
    }
}

/// Takes the first fire that is due at `now`, and decides whether it is run. `None` if no fire is
/// due. An error if its zone isn't lent, and then nothing is taken.
pub(crate) fn take_due<T: CivilSeconds + HasLateness + Copy>(
    agenda: &mut Agenda<T>,
    zones: &[TimeZone<'_>],
    now: Timestamp,
) -> Result<Option<Pick>, ZoneMissing>
    ensures { Picks (late.tables T.has T.lateness (map plain_zone zones.now)) now.nanosecond
        agenda.old result agenda.new }
{
    let Some(first) = agenda.first() else {
        return Ok(None);
    };
    let taken = agenda.next_due(now, zones)?;
    let Some(due) = taken else {
        return Ok(None);
    };
    let is_run = is_run(first.table.lateness(), now, &due, agenda);
    Ok(Some(Pick { due, is_run }))
}
