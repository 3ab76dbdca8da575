//! Many jobs: entries in an array that the caller owns, and their fires in one order.

ghost use Rattle.std.specs.Prelude.{◌≡◌, MatchOption};
ghost use Rattle.cron_c.specs.Agendas.{Begins, FirstIsDue, FollowsBy, FollowsIn, GoesOn, NoneIsDue, Puts, TakesFirst, gone_on};
ghost use Rattle.cron_c.specs.Calls.{Answers};
ghost use Rattle.cron_c.specs.Unions.{seconds_of_any};
ghost use Rattle.cron_c.specs.declared.status.Status.TheVariants.{Done, NoItem};

use crate::agenda_tree::{put, rebuild};
use crate::entry::{AS_SHOWN, CronEntry, NEVER, NONE, ONCE, part_of};
use crate::era::CronEra;
use crate::history::{Begin, first_of_history};
use crate::history_dues::due_past;
use crate::item::{CronItem, moment_of, write_found};
use crate::schedule::CronSchedule;
use crate::status::Status;
use cron_unions::AnyOf;

// Replaces `item` by the first item of any of the schedules after it.
fn fire_past(schedules: &[CronSchedule], eras: &[CronEra], item: &mut CronItem) -> Status
    ensures { FollowsIn (seconds_of_any schedules.now) eras.now item.old item.new result }
{
    let Some(given) = moment_of(*item) else {
        return Status::NotAnItem;
    };
    match first_of_history(&AnyOf { sets: schedules }, eras, &Begin::Past(given)) {
        Ok(found) => write_found(found, item),
        Err(_) => Status::BadZone,
    }
}

// Replaces `item` by the next fire of any of the schedules after it, by the rule `rule`.
fn follow(rule: u32, schedules: &[CronSchedule], eras: &[CronEra], item: &mut CronItem) -> Status
    ensures { FollowsBy rule (seconds_of_any schedules.now) eras.now item.old item.new result }
{
    match rule {
        AS_SHOWN => fire_past(schedules, eras, item),
        ONCE => due_past(&AnyOf { sets: schedules }, eras, item),
        _ => Status::NotAnItem,
    }
}

// Replaces `next` by the next fire of `entry` after it, by the entry's own schedules, eras and
// rule.
fn go_on(
    schedules: &[CronSchedule],
    eras: &[CronEra],
    entry: &CronEntry,
    next: &mut CronItem,
) -> Status
    requires { next.old ≡ entry.now.next }
    ensures { GoesOn schedules.now eras.now entry.now next.new result }
{
    let Some(own) = part_of(schedules, entry.schedules_from, entry.schedules_length) else {
        return Status::NotAnItem;
    };
    let Some(zone) = part_of(eras, entry.eras_from, entry.eras_length) else {
        return Status::NotAnItem;
    };
    follow(entry.rule, own, zone, next)
}

// A copy of `entry` whose next fire is `next`.
fn with_next(entry: &CronEntry, next: CronItem) -> CronEntry
    ensures { result ≡ gone_on entry.now next Done }
{
    CronEntry { next, ..*entry }
}

// A copy of `entry` for an entry that fires no more: its rule is `NONE`.
fn ended(entry: &CronEntry) -> CronEntry
    ensures { result ≡ gone_on entry.now entry.now.next NoItem }
{
    CronEntry {
        rule: NONE,
        ..*entry
    }
}

// The place of the entry that fires first, or `None` if its fire isn't due at the UTC second `now`.
// An entry that has no fire left is never due.
fn due_place(entries: &[CronEntry], now: i64) -> Option<usize>
    ensures { MatchOption result (NoneIsDue now entries.now) (FirstIsDue now entries.now) }
{
    let Some(first) = entries.first() else {
        return None;
    };
    if first.soonest_instant > now || first.soonest_instant >= NEVER {
        return None;
    }
    Some(first.soonest_place)
}

fn take_first(
    schedules: &[CronSchedule],
    eras: &[CronEra],
    entries: &mut [CronEntry],
    now: i64,
    place: &mut usize,
    item: &mut CronItem,
) -> Status
    ensures { TakesFirst schedules.now eras.now now entries.old entries.new
        place.old place.new item.old item.new result }
{
    let Some(at) = due_place(entries, now) else {
        return Status::NoItem;
    };
    *place = at;
    if at >= entries.len() {
        return Status::NotAnItem;
    }
    let entry = entries[at];
    let mut next = entry.next;
    let status = go_on(schedules, eras, &entry, &mut next);
    let gone_on = match status {
        Status::Done => with_next(&entry, next),
        Status::NoItem => ended(&entry),
        _ => return status,
    };
    put(entries, at, &gone_on);
    *item = entry.next;
    Status::Done
}

// Writes `entry` to `place`, or returns `NotAnItem` if there is no such place.
fn put_at(entries: &mut [CronEntry], place: usize, entry: &CronEntry) -> Status
    ensures { Puts entries.old place entry.now entries.new result }
{
    if place >= entries.len() {
        return Status::NotAnItem;
    }
    put(entries, place, entry);
    Status::Done
}

// Makes an agenda of `entries`, and returns `Done`.
fn begin(entries: &mut [CronEntry]) -> Status
    ensures { Begins entries.old entries.new result }
{
    rebuild(entries);
    Status::Done
}

/// Makes an agenda of `entries`, each with its next fire: a tree where place i is above the places
/// 2i + 1 and 2i + 2. Each entry gets the instant and the place of the first fire from its place
/// down. Returns the number of a `Status`.
#[unsafe(no_mangle)]
pub extern "C" fn cron_c_agenda_begin(entries: &mut [CronEntry]) -> u32
    ensures { Answers (Begins entries.old entries.new) result }
{
    begin(entries).code()
}

/// Writes `entry`, with its next fire, to `place` of an agenda. An entry of rule 0 empties the
/// place. The status is `NotAnItem` if there is no such place. Returns the number of a `Status`.
#[unsafe(no_mangle)]
pub extern "C" fn cron_c_agenda_put(
    entries: &mut [CronEntry],
    place: usize,
    entry: &CronEntry,
) -> u32
    ensures { Answers (Puts entries.old place entry.now entries.new) result }
{
    put_at(entries, place, entry).code()
}

/// Removes the next fire of all entries if it is due at the UTC second `now`: writes its place and
/// the fire. Its entry goes on to its next fire, or gets the rule 0 if it fires no more. Returns
/// the number of a `Status`.
#[unsafe(no_mangle)]
pub extern "C" fn cron_c_agenda_next(
    schedules: &[CronSchedule],
    eras: &[CronEra],
    entries: &mut [CronEntry],
    now: i64,
    place: &mut usize,
    item: &mut CronItem,
) -> u32
    ensures { Answers (TakesFirst schedules.now eras.now now entries.old entries.new
        place.old place.new item.old item.new) result }
{
    take_first(schedules, eras, entries, now, place, item).code()
}
