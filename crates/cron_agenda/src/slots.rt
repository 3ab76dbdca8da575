//! Slots of entries.
ghost use Rattle.std.specs.Prelude.{◌≡◌, IfSome};
ghost use Rattle.cron_agenda.specs.Inner.Slots as inner;
ghost use Rattle.cron_agenda.specs.Inner.Words.{CanBeKept};

use crate::entry::Entry;
use crate::fire::{EntryFire, second_of};

/// An entry with its next fire; or the slot of an entry that is gone, without a fire.
// The fields that a fire reads are at the front, since a slot is longer than a line of a cache.
#[derive(Drop)]
pub(crate) struct Slot<T> {
    pub id: u64,
    pub zone: usize,
    pub head: Option<EntryFire>,
    pub table: T,
}

impl<T> Slot<T> {
    /// The instant of the next fire, or `None` if the entry is gone.
    pub(crate) fn instant(&self) -> Option<i64>
        ensures value { result ≡ inner.instant_of self.now }
        ensures bound { IfSome result CanBeKept }
    {
        match &self.head {
            Some(fire) => Some(second_of(fire)),
            None => None,
        }
    }
}

impl<T: Copy> Slot<T> {
    /// The entry, or `None` if it is gone.
    pub(crate) fn entry(&self) -> Option<Entry<T>>
        ensures { inner.IsOwn self.now result }
    {
        match self.head {
            Some(fire) => Some(Entry {
                id: self.id,
                table: self.table,
                zone: self.zone,
                fire,
            }),
            None => None,
        }
    }
}
