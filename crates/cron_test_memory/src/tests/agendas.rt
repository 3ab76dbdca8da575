//! The calls of an agenda that take memory.

use super::calls::start;
use super::support::{ACCEPTED, EARLY, REFUSED, check_same, tell};
use cron::Schedule;
use cron::schedule::Moment;
use cron_agenda::{AddError, Agenda, EntryFire};
use cron_fires::{ClockChanges, fields_of};
use cron_units::fields::ScheduleFields;
use jiff::Timestamp;
use jiff::civil::date;
use jiff::tz::{Offset, TimeZone};
use std::process::Abort;

/// The number of entries that are added. Their memory grows several times.
const ENTRIES: usize = 20;

const ZONES: [TimeZone<'static>; 1] = [TimeZone::UTC];

// Checks that the agenda has `count` entries, which all fire next at `instant`, and none with the
// id `count`.
fn check_entries(rt: &impl Abort, agenda: &Agenda<ScheduleFields>, count: u64, instant: Timestamp) {
    check_same(rt, agenda.len() as u64, count);
    for id in 0..count {
        let Some(entry) = agenda.get(id) else {
            return check_same(rt, false, true);
        };
        let is_right = entry.id == id && entry.fire.timestamp() == instant;
        check_same(rt, is_right, true);
    }
    if let Some(_entry) = agenda.get(count) {
        check_same(rt, true, false);
    }
    if let Some(first) = agenda.first() {
        check_same(rt, first.id, 0);
    }
}

// Checks that an added entry is there, or that a refused one changed nothing. There were `before`
// entries before.
fn check_added(
    rt: &(impl Abort + Print),
    agenda: &Agenda<ScheduleFields>,
    added: Result<u64, AddError>,
    before: u64,
) {
    let instant = "2015-05-04T03:02:01Z".parse().expect(rt, "an instant");
    match added {
        Ok(id) => {
            check_same(rt, id, before);
            check_entries(rt, agenda, before.saturating_add(1), instant);
        }
        Err(AddError::OutOfMemory) => {
            check_entries(rt, agenda, before, instant);
            tell(rt, REFUSED);
        }
        Err(error) => assert!(rt; false, "{error}"),
    }
}

// Removes the fires of all entries, and checks that each entry has just one.
fn take_all(rt: &impl Abort, agenda: &mut Agenda<ScheduleFields>) {
    for _ in 0..agenda.len() {
        match agenda.next(&ZONES).expect(rt, "a fire") {
            Some(fire) => check_same(rt, fire.is_last, true),
            None => assert!(rt; false, "a fire is lacking"),
        }
    }
    let is_done = agenda.next(&ZONES).expect(rt, "no fire").is_none();
    check_same(rt, is_done, true);
}

#[test]
fn add(rt: HostRuntime) {
    let Ok(schedule) = Schedule::from_str(rt.alloc(), ACCEPTED) else {
        return tell(&rt, EARLY);
    };
    let mut agenda = Agenda::new(rt.alloc());
    for _ in 0..ENTRIES {
        let before = agenda.len() as u64;
        let table = fields_of(&schedule);
        let added = agenda.add(table, ClockChanges::AsShown, start(&rt), &ZONES, 0);
        check_added(&rt, &agenda, added, before);
    }
    take_all(&rt, &mut agenda);
}

#[test]
fn add_past(rt: HostRuntime) {
    let noted = Moment::from_parts(date(2014, 5, 4).at(3, 2, 1, 0), Offset::UTC);
    let noted = noted.expect(&rt, "a moment");
    let Ok(schedule) = Schedule::from_str(rt.alloc(), ACCEPTED) else {
        return tell(&rt, EARLY);
    };
    let mut agenda = Agenda::new(rt.alloc());
    for _ in 0..ENTRIES {
        let before = agenda.len() as u64;
        let table = fields_of(&schedule);
        let added = agenda.add_past(table, EntryFire::AsShown(noted), &ZONES, 0);
        check_added(&rt, &agenda, added, before);
    }
    take_all(&rt, &mut agenda);
}

#[test]
fn reserve(rt: HostRuntime) {
    let Ok(schedule) = Schedule::from_str(rt.alloc(), ACCEPTED) else {
        return tell(&rt, EARLY);
    };
    let mut agenda = Agenda::new(rt.alloc());
    if agenda.reserve(ENTRIES).is_err() {
        check_same(&rt, agenda.len(), 0);
        return tell(&rt, REFUSED);
    }
    for _ in 0..ENTRIES {
        let table = fields_of(&schedule);
        let added = agenda.add(table, ClockChanges::AsShown, start(&rt), &ZONES, 0);
        check_same(&rt, added.is_ok(), true);
    }
    take_all(&rt, &mut agenda);
}
