//! Fires of entries, by either rule at clock changes.
ghost use Rattle.std.specs.Prelude.{◌≡◌, ◌*ℤ◌, pos};
ghost use Rattle.jiff.specs.Words.{plain_zone};
ghost use Rattle.cron_agenda.specs.Fires.{fires_after, instant};
ghost use Rattle.cron_agenda.specs.Inner.Slots.{IsFirstFire, IsNextFire};
ghost use Rattle.cron_agenda.specs.Inner.Words.{CanBeKept};

use cron::schedule::Moment;
use cron_dues::fire::due_second;
use cron_fires::{
    CivilSeconds, ClockChanges, DueFire, first_due_after, first_due_past, first_fire_after,
    first_fire_past,
};
use cron_moments::moment::instant_of;
use jiff::Timestamp;
use jiff::tz::TimeZone;
use std::fmt;

/// A fire of an entry, by the rule that the entry has.
#[derive(Clone, Copy, Debug, PartialEq, Eq)]
pub enum EntryFire {
    /// One of the times when the clock shows a match.
    AsShown(Moment),
    /// A match, at the first instant when the clock shows it or a later time.
    Once(DueFire),
}

/// A fire that was removed from an agenda.
#[derive(Clone, Copy, Debug, PartialEq, Eq)]
pub struct AgendaFire {
    /// The entry's id.
    pub id: u64,
    /// When it fires.
    pub fire: EntryFire,
    /// True if it is the entry's last fire. Then the entry is removed.
    pub is_last: bool,
}

impl EntryFire {
    /// The fire's instant.
    pub fn timestamp(&self) -> Timestamp
        ensures { result.nanosecond ≡ instant self.now *ℤ pos 1_000_000_000 }
    {
        match self {
            EntryFire::AsShown(moment) => moment.timestamp(),
            EntryFire::Once(due) => due.timestamp(),
        }
    }
}

/// It prints as the moment or the due fire that it holds.
impl fmt::Display for EntryFire {
    ghost use Rattle.std.specs.Prelude.{Some};
    ghost use Rattle.cron_agenda.specs.Messages.{fire_text};

    ghost output = { λ fire. Some (fire_text fire) };

    ghost styled_output = { λ fire _. Some (fire_text fire) };

    fn fmt<W: fmt::Write>(&self, f: &mut fmt::Formatter<W>) -> fmt::Result {
        match self {
            EntryFire::AsShown(moment) => moment.fmt(f),
            EntryFire::Once(due) => due.fmt(f),
        }
    }
}

/// The instant of a fire, in seconds since 1970-01-01T00:00:00Z.
pub(crate) fn second_of(fire: &EntryFire) -> i64
    ensures value { result ≡ instant fire.now }
    ensures bound { CanBeKept result }
{
    match fire {
        EntryFire::AsShown(moment) => instant_of(moment),
        EntryFire::Once(due) => due_second(due),
    }
}

/// The first fire after the instant `now`, by the rule `changes`. `None` if there is none.
pub(crate) fn first_after<T: CivilSeconds>(
    table: &T,
    changes: ClockChanges,
    now: Timestamp,
    zone: &TimeZone<'_>,
) -> Option<EntryFire>
    ensures { IsFirstFire
        (T.has table.now)
        (plain_zone zone.now)
        (fires_after (T.has table.now) (plain_zone zone.now) changes now.nanosecond)
        result }
{
    match changes {
        ClockChanges::AsShown => match first_fire_after(table, now, zone) {
            Some(moment) => Some(EntryFire::AsShown(moment)),
            None => None,
        },
        ClockChanges::Once => match first_due_after(table, now, zone) {
            Some(due) => Some(EntryFire::Once(due)),
            None => None,
        },
    }
}

/// The next fire after `fire`, by the same rule. `None` if there is none.
pub(crate) fn first_past<T: CivilSeconds>(
    table: &T,
    fire: &EntryFire,
    zone: &TimeZone<'_>,
) -> Option<EntryFire>
    ensures { IsNextFire (T.has table.now) (plain_zone zone.now) fire.now result }
{
    match fire {
        EntryFire::AsShown(moment) => match first_fire_past(table, moment, zone) {
            Some(next) => Some(EntryFire::AsShown(next)),
            None => None,
        },
        EntryFire::Once(due) => match first_due_past(table, due, zone) {
            Some(next) => Some(EntryFire::Once(next)),
            None => None,
        },
    }
}
