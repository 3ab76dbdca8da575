//! An entry of an agenda as plain numbers.

ghost use Rattle.std.specs.Prelude.{◌≡◌, ◌+◌, ◌≤◌, MatchOption, length, slice_range};
ghost use Rattle.cron_c.specs.Agendas.{IsWithin, when};

use crate::item::CronItem;

/// The rule of a place that has no entry.
pub const NONE: u32 = 0;

/// The rule of fires as the clock shows them: a repeated time is two fires, and a skipped one none.
pub const AS_SHOWN: u32 = 1;

/// The rule of due fires: each match fires once, also when the clock changes.
pub const ONCE: u32 = 2;

/// The instant of an entry that has no fire left, in seconds since 1970.
pub const NEVER: i64 = i64::MAX;

/// An entry of an agenda. It fires by some of the caller's schedules and eras, each given by the
/// first place and the count. `next` is its next fire. The rule is 1 for fires as the clock shows
/// them, 2 for each match once, and 0 if there is no entry. The last two numbers say when and at
/// which place the first fire comes, of this entry and those below it in the agenda's tree.
#[repr(C)]
#[derive(Clone, Copy)]
pub struct CronEntry {
    pub schedules_from: usize,
    pub schedules_length: usize,
    pub eras_from: usize,
    pub eras_length: usize,
    pub next: CronItem,
    pub rule: u32,
    pub reserved: u32,
    pub soonest_instant: i64,
    pub soonest_place: usize,
}

/// The instant of an entry's next fire in seconds since 1970, or `NEVER` if there is no entry.
pub fn instant_of(entry: &CronEntry) -> i64
    ensures { result ≡ when entry.now }
{
    if entry.rule == NONE {
        NEVER
    } else {
        entry.next.instant
    }
}

/// The `count` members of `all` from place `from` on, or `None` if they aren't all there.
pub fn part_of<T>(all: &[T], from: usize, count: usize) -> Option<&[T]>
    ensures { MatchOption result
        (IsWithin all.now from count → ⊥)
        (λ part. IsWithin all.now from count
        × (part.now ≡ slice_range all.now from (from + count))) }
{
    let Some(end) = from.checked_add(count) else {
        return None;
    };
    all.get(from..end)
}
