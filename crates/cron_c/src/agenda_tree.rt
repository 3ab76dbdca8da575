//! The tree of an agenda, where place `i` is above the places `2i + 1` and `2i + 2`. A key is the
//! instant of a fire and the place of its entry. Each entry holds the key of the first fire from
//! its place down.

ghost use Rattle.std.specs.Prelude.{◌≡◌, ◌<◌, Some, length, map, slice_set};
ghost use Rattle.cron_earliest.specs.Tree as tree;
ghost use Rattle.cron_c.specs.Agendas.{AreSame, AreSameBut, IsAgenda, IsAgendaBut, bare, instants_of, soonest};

use crate::entry::{CronEntry, instant_of};
use cron_earliest::{Key, lesser};

// The key of the next fire of the entry at place `at`.
fn own_at(entries: &[CronEntry], at: usize) -> Key
    requires { at < length entries.now }
    ensures { Some result ≡ tree.own_at (instants_of entries.now) at }
{
    Key {
        instant: instant_of(&entries[at]),
        place: at,
    }
}

// The key that the entry at place `at` holds: the least from that place down. `None` past the end.
fn best_at(entries: &[CronEntry], at: usize) -> Option<Key>
    ensures { result ≡ tree.best_at (map soonest entries.now) at }
{
    match entries.get(at) {
        Some(entry) => Some(Key {
            instant: entry.soonest_instant,
            place: entry.soonest_place,
        }),
        None => None,
    }
}

// The least of the key of place `at` and the keys of its children.
fn best_of(entries: &[CronEntry], at: usize) -> Key
    requires { at < length entries.now }
    ensures { Some result ≡ tree.best_of (instants_of entries.now) (map soonest entries.now) at }
{
    let own = own_at(entries, at);
    let below = lesser(best_at(entries, 2 * at + 1), best_at(entries, 2 * at + 2));
    match lesser(Some(own), below) {
        Some(key) => key,
        None => own,
    }
}

// A copy of `entry` that holds `key`.
fn telling(entry: &CronEntry, key: Key) -> CronEntry
    ensures same { bare result ≡ bare entry.now }
    ensures key { soonest result ≡ Some key }
{
    CronEntry {
        soonest_instant: key.instant,
        soonest_place: key.place,
        ..*entry
    }
}

// A copy of `entry` that holds the key of `other`.
fn in_place_of(entry: &CronEntry, other: &CronEntry) -> CronEntry
    ensures same { bare result ≡ bare entry.now }
    ensures key { soonest result ≡ soonest other.now }
{
    CronEntry {
        soonest_instant: other.soonest_instant,
        soonest_place: other.soonest_place,
        ..*entry
    }
}

// Writes `key` to the entry at place `at`.
fn tell(entries: &mut [CronEntry], at: usize, key: Key)
    requires { at < length entries.old }
    ensures same { AreSame entries.old entries.new }
    ensures keys { map soonest entries.new ≡ slice_set (map soonest entries.old) at (Some key) }
{
    let entry = telling(&entries[at], key);
    entries[at] = entry;
}

// Corrects the keys of place `from` and of the places above it. The others must be correct.
fn repair(entries: &mut [CronEntry], from: usize)
    requires { from < length entries.old }
    ensures same { AreSame entries.old entries.new }
    ensures tree { IsAgendaBut entries.old from → IsAgenda entries.new }
{
    let mut at = from;
    loop {
        let key = best_of(entries, at);
        tell(entries, at, key);
        if at == 0 {
            return;
        }
        at = (at - 1) / 2;
    }
}

/// Corrects the keys of all places, the last one first.
pub fn rebuild(entries: &mut [CronEntry])
    ensures same { AreSame entries.old entries.new }
    ensures tree { IsAgenda entries.new }
{
    for at in (0..entries.len()).rev() {
        let key = best_of(entries, at);
        tell(entries, at, key);
    }
}

/// Writes `entry` to place `at`, and corrects the keys.
pub fn put(entries: &mut [CronEntry], at: usize, entry: &CronEntry)
    requires { at < length entries.old }
    ensures same { AreSameBut entries.old at entry.now entries.new }
    ensures tree { IsAgenda entries.old → IsAgenda entries.new }
{
    let entry = in_place_of(entry, &entries[at]);
    entries[at] = entry;
    repair(entries, at);
}
