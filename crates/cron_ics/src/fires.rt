//! The fires of an entry, by either rule: a match fires each time that the clock shows it, or it
//! fires once.
ghost use Rattle.std.specs.Prelude.{◌≡◌, ◌<◌, ◌≤◌, List, IfErr, IfOk, length};
ghost use Rattle.cron_ics.specs.Fires.{AreTold, TakesFirst, Told, fires_of};

use crate::entry::Entry;
use crate::error::IcsError;
use cron_dues::fire::{due_second, nominal_second};
use cron_dues::once::Once;
use cron_instants::as_shown::AsShown;
use cron_moments::moment::{civil_second, instant_of};
use cron_plans::table::Table;
use cron_seconds::run::Run;
use jiff::Timestamp;
use jiff::civil::DateTime;
use jiff::tz::{Offset, TimeZone};
use std::alloc::Global;

/// A fire, as a calendar needs it.
#[derive(Clone, Copy)]
pub struct Fire {
    /// The fire's instant, in seconds since 1970-01-01T00:00:00Z.
    pub second: i64,
    /// The civil second that matches, in seconds since 1970-01-01 00:00:00 on the zone's clock.
    pub civil: u32,
    /// The date and time in UTC at the fire.
    pub utc: DateTime,
}

// The fires of schedules, by a plan or without one, that aren't taken yet: each time that the clock shows a match,
// or each match once.
type ShownRun<'a> = Run<'a, Table<'a>, AsShown<TimeZone<'a>>>;

type DueRun<'a> = Run<'a, Table<'a>, Once<TimeZone<'a>>>;

// A fire from its parts.
fn fire_of(second: i64, civil: u32, utc: DateTime) -> Fire
    ensures second { result.second ≡ second }
    ensures civil { result.civil ≡ civil }
    ensures utc { result.utc ≡ utc }
{
    Fire { second, civil, utc }
}

/// A sequence of fires that are taken one after another.
trait Left {
    // the fires that aren't taken yet
    ghost left: { Self → List Told };

    /// Removes the first fire that is left and returns it. `None` if no fire is left.
    fn take_first(&mut self) -> Option<Fire>
        ensures { TakesFirst (left self.old) result (left self.new) };
}

impl<'a> Left for ShownRun<'a> {
    ghost use Rattle.std.specs.Prelude.{map};
    ghost use Rattle.cron_ics.specs.Fires.{told_moment};

    ghost left = { λ run. map told_moment run };

    fn take_first(&mut self) -> Option<Fire> {
        match self.next() {
            Some(moment) => Some(fire_of(
                instant_of(&moment),
                civil_second(&moment),
                Offset::UTC.to_datetime(moment.timestamp()),
            )),
            None => None,
        }
    }
}

impl<'a> Left for DueRun<'a> {
    ghost use Rattle.std.specs.Prelude.{map};
    ghost use Rattle.cron_ics.specs.Fires.{told_due};

    ghost left = { λ run. map told_due run };

    fn take_first(&mut self) -> Option<Fire> {
        match self.next() {
            Some(due) => Some(fire_of(
                due_second(&due),
                nominal_second(&due),
                Offset::UTC.to_datetime(due.timestamp()),
            )),
            None => None,
        }
    }
}

// All fires that are left. More than `room` of them are an error.
fn collect<L: Left>(alloc: Global, left: &mut L, room: usize) -> Result<Vec<Fire>, IcsError>
    ensures told { IfOk result (λ fires. AreTold (L.left left.old) fires.items) }
    ensures few { IfOk result (λ fires. length (L.left left.old) ≤ room) }
    ensures many { IfErr result
        (λ why. why ≡ IcsError.TooMany → room < length (L.left left.old)) }
    ensures some { IfErr result (λ why. why ≡ IcsError.NoEvents → ⊥) }
{
    let mut fires = Vec::new(alloc);
    'fires: while let Some(fire) = left.take_first() {
        if fires.len() >= room {
            return Err(IcsError::TooMany);
        }
        if fires.push(fire).is_err() {
            return Err(IcsError::OutOfMemory);
        }
    }
    Ok(fires)
}

/// The fires of `entry` after `start`, up to and including `end`. More than `room` of them are an
/// error.
pub(crate) fn fires_of(
    alloc: Global,
    entry: &Entry<'_>,
    start: Timestamp,
    end: Timestamp,
    room: usize,
) -> Result<Vec<Fire>, IcsError>
    ensures told { IfOk result (λ fires. AreTold
        (fires_of start.nanosecond end.nanosecond entry.now) fires.items) }
    ensures few { IfOk result (λ fires. length
        (fires_of start.nanosecond end.nanosecond entry.now) ≤ room) }
    ensures many { IfErr result (λ why. why ≡ IcsError.TooMany → room < length
        (fires_of start.nanosecond end.nanosecond entry.now)) }
    ensures some { IfErr result (λ why. why ≡ IcsError.NoEvents → ⊥) }
{
    let table = Table::of(entry.schedules, &entry.plan);
    if entry.once {
        return collect(
            alloc,
            &mut DueRun::between(table, start, end, entry.zone),
            room,
        );
    }
    collect(
        alloc,
        &mut ShownRun::between(table, start, end, entry.zone),
        room,
    )
}
