//! The fires of crontab entries, in one order.

ghost use Rattle.std.specs.Prelude.{◌≡◌, ◌≤◌, IfErr, map, vec_capacity, vec_len};
ghost use Rattle.jiff.specs.Words.{plain_zone};
ghost use Rattle.cron_tab_agenda.specs.Inner.Pushes.{IsPushed};
ghost use Rattle.cron_tab_agenda.specs.Listing.{Lists, TakesTab};

use crate::error::ListError;
use crate::tab_entry::TabEntry;
use cron_agenda::{Agenda, EntryFire, ZoneMissing};
use jiff::Timestamp;
use jiff::tz::TimeZone;

/// A fire of a crontab entry.
#[derive(Clone, Copy, Debug, PartialEq, Eq)]
pub struct TabFire {
    /// The entry's id in the agenda.
    pub id: u64,
    /// The number of the entry's line, from 1 on.
    pub line: usize,
    /// The fire itself, by the entry's rule.
    pub fire: EntryFire,
}

/// Removes the next fire of all entries if its instant is at or before `until`, and returns it;
/// `None` if no fire is. Fires are ordered by instant. At one instant the fire of the line that was
/// added first comes first. If the fire's zone isn't in `zones`, nothing is removed. It takes no
/// memory.
pub fn next_fire(
    agenda: &mut Agenda<TabEntry>,
    until: Timestamp,
    zones: &[TimeZone<'_>],
) -> Result<Option<TabFire>, ZoneMissing>
    ensures { TakesTab (map plain_zone zones.now) until.nanosecond agenda.old result agenda.new }
{
    let Some(first) = agenda.first() else {
        return Ok(None);
    };
    let line = first.table.line();
    match agenda.next_due(until, zones) {
        Ok(Some(taken)) => Ok(Some(TabFire {
            id: taken.id,
            line,
            fire: taken.fire,
        })),
        Ok(None) => Ok(None),
        Err(missing) => Err(missing),
    }
}

// Appends the next fire to `fires`, once there is room for it, and removes it from its entry.
// Returns true if one was due at or before `until`.
fn push_next(
    fires: &mut Vec<TabFire>,
    agenda: &mut Agenda<TabEntry>,
    until: Timestamp,
    zones: &[TimeZone<'_>],
) -> Result<bool, ListError>
    ensures pushed { IsPushed (map plain_zone zones.now) until.nanosecond
        agenda.old fires.old.items result fires.new.items agenda.new }
    ensures full { IfErr result
        (λ e. e ≡ ListError.OutOfMemory → vec_capacity fires.new ≤ vec_len fires.new) }
{
    if fires.try_reserve(1).is_err() {
        return Err(ListError::OutOfMemory);
    }
    match next_fire(agenda, until, zones) {
        Ok(Some(fire)) => match fires.push(fire) {
            Ok(()) => Ok(true),
            // never, since there is room
            Err(_) => Err(ListError::OutOfMemory),
        },
        Ok(None) => Ok(false),
        Err(missing) => Err(ListError::Zone(missing)),
    }
}

/// Removes the fires of all entries at or before `until`, at most `limit` of them, and appends them
/// to `fires`. They come by instant. At one instant the fire of the line that was added first comes
/// first. On an error the removed fires are appended too: room is made before a fire is removed.
pub fn list_fires(
    fires: &mut Vec<TabFire>,
    agenda: &mut Agenda<TabEntry>,
    until: Timestamp,
    limit: usize,
    zones: &[TimeZone<'_>],
) -> Result<(), ListError>
    ensures lists { Lists (map plain_zone zones.now) until.nanosecond limit
        agenda.old fires.old.items result fires.new.items agenda.new }
    ensures full { IfErr result
        (λ e. e ≡ ListError.OutOfMemory → vec_capacity fires.new ≤ vec_len fires.new) }
{
    for _ in 0..limit {
        match push_next(fires, agenda, until, zones) {
            Ok(true) => {}
            Ok(false) => return Ok(()),
            Err(error) => return Err(error),
        }
    }
    Ok(())
}
