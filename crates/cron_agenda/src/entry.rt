//! An entry of an agenda.

use crate::fire::EntryFire;

/// An entry of an agenda: what fires, its zone, and its next fire.
#[derive(Clone, Copy, Debug)]
pub struct Entry<T> {
    /// The entry's id, which no other entry has or had.
    pub id: u64,
    /// The civil seconds that it fires at.
    pub table: T,
    /// The number of its zone, counted from 0, in the zones that are lent.
    pub zone: usize,
    /// Its next fire.
    pub fire: EntryFire,
}
