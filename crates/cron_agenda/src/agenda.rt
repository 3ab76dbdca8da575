//! Entries, each with its next fire. An entry has a slot, which stays for a while when the entry is
//! gone. A sweep later moves the slots that have entries to the front, and drops the others.
ghost use Rattle.std.specs.Prelude.{◌≡◌, ◌≤◌, [], length, map};
ghost use Rattle.jiff.specs.Words.{plain_zone};
ghost use Rattle.cron_fires.specs.Matches.{Matches};
ghost use Rattle.cron_agenda.specs.Fires.{civil_second, fires_after, fires_past};
ghost use Rattle.cron_agenda.specs.Entries.{Adds, HaveIds, IsEntryOf, IsFirstEntry, Reserves, TakesDue, TakesNext, has, listed, with_entries, without};
ghost use Rattle.cron_agenda.specs.Inner.Slots as inner;

use crate::earliest::Earliest;
use crate::entry::Entry;
use crate::error::{AddError, ZoneMissing};
use crate::fire::{AgendaFire, EntryFire, first_after, first_past};
use crate::next::next_past;
use crate::slots::Slot;
use cron_fires::{CivilSeconds, ClockChanges};
use jiff::Timestamp;
use jiff::tz::TimeZone;
use std::alloc::{AllocError, Global};
use std::marker::Model;

/// How many steps of a sweep one call takes.
const STEPS: usize = 8;

/// Entries, each with its next fire. Contracts see the entries in the order of their ids, the count
/// of all ever added, and the count of further entries that have memory already.
#[derive(Drop)]
pub struct Agenda<T: CivilSeconds> {
    slots: Vec<Slot<T>>,
    firsts: Earliest,
    live: usize,
    added: u64,
    room: usize,
    // The count of slots at the front that are packed, and the count that a sweep has scanned. The
    // slots between are left over: they have no entry, and a sweep will drop them.
    packed: usize,
    scanned: usize,
}

impl<T: CivilSeconds> Model for Agenda<T> {
    ghost use Rattle.cron_agenda.specs.Entries.{Listed, listed};
    ghost use Rattle.std.specs.Prelude.{vec_capacity, vec_len};
    ghost use Rattle.cron_agenda.specs.Inner.Slots.{FiresMatch, HasRoom, IsKept, entries_of};

    ghost Value = { Listed T };

    ghost view = { λ a. listed (entries_of a.slots.items) a.added a.room };

    ghost invariant = { λ a. IsKept a.slots.items a.firsts.instants a.live a.added a.packed a.scanned
        × HasRoom (vec_len a.slots) (vec_capacity a.slots) a.firsts.room a.room
        × FiresMatch T.has a.slots.items };
}

// The place of the entry `id`, or `None` if it isn't there.
fn place_of<T>(slots: &[Slot<T>], id: u64) -> Option<usize>
    ensures { inner.IsPlaceOf slots.now id result }
{
    let mut low = 0;
    let mut high = slots.len();
    while low < high {
        let middle = low + (high - low) / 2;
        let slot = &slots[middle];
        if slot.id == id {
            return if slot.head.is_some() {
                Some(middle)
            } else {
                None
            };
        }
        if slot.id < id {
            low = middle + 1;
        } else {
            high = middle;
        }
    }
    None
}

// The place of the entry `id` in slots with two parts, the packed ones and those not yet scanned.
// The slots between them are left over and aren't searched, as their ids are in no order.
fn place_in_parts<T>(slots: &[Slot<T>], packed: usize, scanned: usize, id: u64) -> Option<usize>
    requires packed { packed ≤ scanned }
    requires scanned { scanned ≤ length slots.now }
    ensures { inner.IsPlaceInParts slots.now packed scanned id result }
{
    if packed > 0 && id <= slots[packed - 1].id {
        return place_of(&slots[..packed], id);
    }
    let place = place_of(&slots[scanned..], id)?;
    Some(scanned + place)
}

impl<T: CivilSeconds + Copy> Agenda<T> {
    /// An agenda without entries.
    pub fn new(alloc: Global) -> Agenda<T>
        ensures { result ≡ listed [] 0 0 }
    {
        Agenda {
            slots: Vec::new(alloc),
            firsts: Earliest::new(alloc),
            live: 0,
            added: 0,
            room: 0,
            packed: 0,
            scanned: 0,
        }
    }

    /// The count of entries. Their ids ascend, and are less than the count of all ever added.
    pub fn len(&self) -> usize
        ensures len { result ≡ length self.now.entries }
        ensures ids { HaveIds 0 self.now.entries self.now.added }
    {
        self.live
    }

    /// Takes memory for `additional` more entries: adding them takes none, and is never refused for
    /// want of it. It also returns an error if there would be more than 2^30 slots, of entries and
    /// of some that are gone.
    pub fn reserve(&mut self, additional: usize) -> Result<(), AllocError>
        ensures { Reserves additional self.old result self.new }
    {
        self.slots.try_reserve(additional)?;
        self.firsts.reserve(additional)?;
        self.room = self.room.max(additional);
        Ok(())
    }

    // Counts the added slot as packed at once, if no sweep is running.
    fn skip_added(&mut self)
        ensures { self.new ≡ self.old }
    {
        if self.packed == self.scanned && self.scanned + 1 == self.slots.len() {
            self.scanned = self.slots.len();
            self.packed = self.scanned;
        }
    }

    // Adds an entry whose next fire is `fire`.
    fn insert(&mut self, table: T, zone: usize, fire: EntryFire) -> Result<u64, AddError>
        requires { Matches (T.has table) (civil_second fire) }
        ensures { inner.Inserts table zone fire self.old result self.new }
    {
        if self.added == u64::MAX {
            return Err(AddError::NoIds);
        }
        let slot = Slot {
            id: self.added,
            table,
            zone,
            head: Some(fire),
        };
        if self.slots.try_reserve(1).is_err() {
            return Err(AddError::OutOfMemory);
        }
        if self.firsts.push(slot.instant()).is_err() {
            return Err(AddError::OutOfMemory);
        }
        if self.slots.push(slot).is_err() {
            return Err(AddError::OutOfMemory);
        }
        let id = self.added;
        self.added += 1;
        self.live += 1;
        self.room = self.room.saturating_sub(1);
        self.skip_added();
        Ok(id)
    }

    /// Adds an entry: the fires of `table` after `start`, by the rule `changes`, in the zone with
    /// the number `zone`. It returns the entry's id, which no other entry has or had: ids count
    /// from 0. An error changes nothing. [`AddError::OutOfMemory`] also comes if there are 2^30
    /// slots.
    pub fn add(
        &mut self,
        table: T,
        changes: ClockChanges,
        start: Timestamp,
        zones: &[TimeZone<'_>],
        zone: usize,
    ) -> Result<u64, AddError>
        ensures { Adds T.has (map plain_zone zones.now) table zone
            (λ z. fires_after (T.has table) z changes start.nanosecond)
            self.old result self.new }
    {
        let Some(lent) = zones.get(zone) else {
            return Err(AddError::NoZone);
        };
        let Some(fire) = first_after(&table, changes, start, lent) else {
            return Err(AddError::NoFires);
        };
        self.insert(table, zone, fire)
    }

    /// Adds an entry: the fires of `table` that follow `last`, by the rule of `last`, such as a
    /// fire noted before a restart. Its id and its errors are the same as for [`Agenda::add`].
    pub fn add_past(
        &mut self,
        table: T,
        last: EntryFire,
        zones: &[TimeZone<'_>],
        zone: usize,
    ) -> Result<u64, AddError>
        ensures { Adds T.has (map plain_zone zones.now) table zone
            (λ z. fires_past (T.has table) z last)
            self.old result self.new }
    {
        let Some(lent) = zones.get(zone) else {
            return Err(AddError::NoZone);
        };
        let Some(later) = first_past(&table, &last, lent) else {
            return Err(AddError::NoFires);
        };
        self.insert(table, zone, later)
    }

    // Begins a sweep if none is running and fewer than half of the slots have an entry.
    fn begin_sweep(&mut self)
        ensures { self.new ≡ self.old }
    {
        if self.packed == self.slots.len() && self.live < self.slots.len() / 2 {
            self.packed = 0;
            self.scanned = 0;
        }
    }

    // Takes one step of a sweep: scans a slot, and moves it to the front if it has an entry. Once
    // all slots are scanned, a step drops the last one instead.
    fn step(&mut self)
        ensures { self.new ≡ self.old }
    {
        let to = self.packed;
        let at = self.scanned;
        if at >= self.slots.len() {
            if to < at {
                self.slots.pop();
                self.firsts.pop();
                self.scanned = at - 1;
            }
            return;
        }
        let instant = self.slots[at].instant();
        self.scanned = at + 1;
        if instant.is_none() {
            return;
        }
        let left = self.slots[to].instant();
        self.slots.swap(to, at);
        self.firsts.set(to, instant);
        self.firsts.set(at, left);
        self.packed = to + 1;
    }

    // Takes `STEPS` steps of a sweep.
    fn sweep(&mut self)
        ensures { self.new ≡ self.old }
    {
        for _ in 0..STEPS {
            self.step();
        }
    }

    // Continues a sweep, or begins one, by a few steps at each call that may have emptied a slot.
    //
    // Slots don't pile up. A sweep that begins with n slots, while k are added, takes at most 2(n +
    // k) steps, so at most (n + k) / 4 + 1 calls. Each of them removes at most one entry. So if
    // there are never more than p entries, k is at most p + (n + k) / 4 + 1. This bounds k by (4p +
    // n + 4) / 3. The sweep leaves at most p slots, and one for each call. If n is at most 2p + 2,
    // which holds at first, that is at most 2p + 2 again. Meanwhile there are at most 4p + 4 slots.
    fn compact(&mut self)
        ensures { self.new ≡ self.old }
    {
        self.begin_sweep();
        if self.packed < self.slots.len() {
            self.sweep();
        }
    }

    // Removes the entry `id`, and leaves its slot. Returns true if there was one.
    fn empty_slot(&mut self, id: u64) -> bool
        ensures found { result ≡ has id self.old.entries }
        ensures rest { self.new ≡ with_entries (without id self.old.entries) self.old }
    {
        let Some(place) = place_in_parts(&self.slots, self.packed, self.scanned, id) else {
            return false;
        };
        let slot = &mut self.slots[place];
        slot.head = None;
        self.firsts.set(place, None);
        self.live -= 1;
        true
    }

    /// Removes the entry `id`, and returns true if there was one. It takes no memory. Once fewer
    /// than half of the slots have an entry, this call and later ones drop the others. Each call
    /// takes only a few steps of that, so none goes over all slots.
    pub fn remove(&mut self, id: u64) -> bool
        ensures found { result ≡ has id self.old.entries }
        ensures rest { self.new ≡ with_entries (without id self.old.entries) self.old }
    {
        let found = self.empty_slot(id);
        self.compact();
        found
    }

    /// The entry `id`, or `None` if it isn't there.
    pub fn get(&self, id: u64) -> Option<Entry<T>>
        ensures { IsEntryOf id self.now.entries result }
    {
        let place = place_in_parts(&self.slots, self.packed, self.scanned, id)?;
        self.slots[place].entry()
    }

    /// The entry that fires next, or `None` if there is no entry. It has the least instant, and of
    /// entries with that instant it was added first.
    pub fn first(&self) -> Option<Entry<T>>
        ensures { IsFirstEntry self.now.entries result }
    {
        let place = self.firsts.first()?;
        self.slots[place].entry()
    }

    // Removes the next fire from its entry and returns it. An entry without a further fire is
    // removed, and its slot stays.
    fn take(&mut self, zones: &[TimeZone<'_>]) -> Result<Option<AgendaFire>, ZoneMissing>
        ensures { TakesNext T.has (map plain_zone zones.now) self.old result self.new }
    {
        let Some(place) = self.firsts.first() else {
            return Ok(None);
        };
        let slot = &self.slots[place];
        let id = slot.id;
        let Some(fire) = slot.head else {
            return Ok(None);
        };
        let Some(zone) = zones.get(slot.zone) else {
            return Err(ZoneMissing { id });
        };
        let next = next_past(&slot.table, &fire, zone);
        let is_last = next.is_none();
        let changed = &mut self.slots[place];
        changed.head = next;
        let instant = changed.instant();
        self.firsts.set(place, instant);
        if is_last {
            self.live -= 1;
        }
        Ok(Some(AgendaFire { id, fire, is_last }))
    }

    /// Removes the next fire of all entries and returns it: the one with the least instant, and of
    /// fires at one instant the one whose entry was added first. Its entry goes on to its next fire
    /// in its zone. An entry that has none is removed, and the returned fire says so. If its zone
    /// isn't lent, nothing is removed. It takes no memory. A call may drop a few slots of entries
    /// that are gone, as [`Agenda::remove`] describes.
    pub fn next(&mut self, zones: &[TimeZone<'_>]) -> Result<Option<AgendaFire>, ZoneMissing>
        ensures { TakesNext T.has (map plain_zone zones.now) self.old result self.new }
    {
        let taken = self.take(zones)?;
        self.compact();
        Ok(taken)
    }

    /// The same as [`Agenda::next`] if that fire is due: its instant is at or before `now`. Else no
    /// entry's fire is due, and it returns `None`.
    pub fn next_due(
        &mut self,
        now: Timestamp,
        zones: &[TimeZone<'_>],
    ) -> Result<Option<AgendaFire>, ZoneMissing>
        ensures { TakesDue T.has (map plain_zone zones.now) now.nanosecond
            self.old result self.new }
    {
        let Some(first) = self.first() else {
            return Ok(None);
        };
        if first.fire.timestamp() > now {
            return Ok(None);
        }
        self.next(zones)
    }
}
