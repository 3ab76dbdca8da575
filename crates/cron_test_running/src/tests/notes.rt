//! Runs of a crontab where each call of the store fails in turn, or is the last before a power cut.
//! Further runs are begun again from what the store holds then.

mod disk;
mod runs;
mod shelf;
mod table;
mod waking;

use super::check_same;
use cron_agenda_scheduler::AgendaStop;
use cron_tab_running::{Failure, Interruption, Noted, read_note};
use disk::{Act, Disk, LOST, Lost, Name, WHOLE};
use runs::{Ran, run};
use shelf::{Shelf, Trouble, code_of};
use std::cell::Cell;
use std::process::Abort;
use table::{DAY, END, MIDNIGHT, NEVER, Tab, note_of, texts};
use waking::{Fault, Waking};

/// How many calls replace a note: a write, a sync, a change of names, and a sync of the folder.
const CALLS: usize = 4;

/// A run of a crontab, by seconds of the day: what is noted before it, what its clock shows first,
/// and what is noted one after another. The clock wakes `late` seconds late.
#[derive(Clone, Copy, Debug)]
struct Case {
    tab: Tab,
    noted: Option<i64>,
    begin: i64,
    late: i64,
    notes: &'static [i64],
}

/// The cases. Nothing is noted, and the clock wakes in time, or late. Fires are late at the start.
/// The clock has gone back. Two runs end at once, since nothing fires.
const CASES: [Case; 6] = [
    Case {
        tab: DAY,
        noted: None,
        begin: 0,
        late: 0,
        notes: &[0, 1800, 3600, 5400, 7200],
    },
    Case {
        tab: DAY,
        noted: None,
        begin: 0,
        late: 4200,
        notes: &[0, 6000, 11_400],
    },
    Case {
        tab: DAY,
        noted: Some(0),
        begin: 4000,
        late: 0,
        notes: &[4000, 5400, 7200],
    },
    Case {
        tab: DAY,
        noted: Some(4000),
        begin: 100,
        late: 60,
        notes: &[4000, 5460, 7260],
    },
    Case {
        tab: NEVER,
        noted: None,
        begin: 500,
        late: 0,
        notes: &[500],
    },
    Case {
        tab: NEVER,
        noted: Some(400),
        begin: 500,
        late: 0,
        notes: &[500],
    },
];

impl Case {
    // The second of the day after which fires are run.
    fn start(&self) -> i64 {
        self.noted.unwrap_or(self.begin)
    }

    fn calls(&self) -> usize {
        self.notes.len().saturating_mul(CALLS)
    }
}

/// Where a run ended: in note `number`, counted from 0, after `made` of its calls.
#[derive(Clone, Copy, Debug)]
struct Place {
    case: Case,
    number: usize,
    made: usize,
}

impl Place {
    // The second that the note before this one says, or `None` if there was none.
    fn before(&self) -> Option<i64> {
        match self.number.checked_sub(1) {
            Some(last) => self.case.notes.get(last).copied(),
            None => self.case.noted,
        }
    }

    // The second of the day that this note says once it is whole.
    fn then(&self) -> i64 {
        self.case.notes.get(self.number).copied().unwrap_or(END)
    }
}

// The note in a file that has the bytes `held`, or an empty note if there is no file.
fn noted_in(rt: &(impl Abort + AllocGlobal), held: Option<&[u8]>) -> Noted {
    match held {
        Some(bytes) => read_note(rt.alloc(), bytes)
            .expect(rt, "memory")
            .expect(rt, "a whole note"),
        None => Noted::nothing(rt.alloc()),
    }
}

// The files before a run: the note that it goes on from, if it has one.
fn disk_of(rt: &(impl Abort + AllocGlobal), case: &Case) -> Disk {
    let mut disk = Disk::new(rt.alloc());
    if let Some(second) = case.noted {
        let note = note_of(rt, &case.tab, second);
        let write = Act::Write(Name::Note, note.as_bytes());
        for act in [write, Act::Sync(Name::Note), Act::SyncFolder] {
            disk.make(act).expect(rt, "memory");
        }
    }
    disk
}

// Runs a case whose store has the trouble `trouble`.
fn run_case<'a>(
    rt: &(impl Abort + AllocGlobal),
    case: &Case,
    trouble: Trouble,
    cut: &'a Cell<bool>,
) -> Ran<'a> {
    let disk = disk_of(rt, case);
    let noted = noted_in(rt, disk.note(WHOLE));
    let clock = Waking {
        second: MIDNIGHT.saturating_add(case.begin),
        late: case.late,
        end: MIDNIGHT.saturating_add(END),
        cut,
    };
    run(rt, &case.tab, &noted, clock, Shelf::new(disk, trouble, cut))
}

// The second of the day that a store's note says, or `None` if there is no note. It must be the
// note of `place` or, while that isn't finished, the one before it, and whole.
fn second_of(rt: &(impl Abort + AllocGlobal), place: &Place, held: Option<&[u8]>) -> Option<i64> {
    if let Some(bytes) = held {
        if bytes == note_of(rt, &place.case.tab, place.then()).as_bytes() {
            return Some(place.then());
        }
    }
    check_same(rt, &("no note is lost", place), place.made < CALLS, true);
    match (held, place.before()) {
        (Some(bytes), Some(second)) => {
            let note = note_of(rt, &place.case.tab, second);
            check_same(rt, place, bytes, note.as_bytes());
            Some(second)
        }
        (None, None) => None,
        _ => panic!(rt; "there is no note, or none was before it: {place:?}"),
    }
}

// Begins again from what a cut leaves: an hour later, or at once if nothing is noted. Checks that
// nothing noted is written again, and that nothing else is lost.
fn begin_again(rt: &(impl Abort + AllocGlobal), place: &Place, ran: &Ran<'_>, lost: Lost) {
    let disk = ran.shelf.disk.after(lost).expect(rt, "memory");
    let second = second_of(rt, place, disk.note(WHOLE));
    let noted = noted_in(rt, disk.note(WHOLE));
    let cut = Cell::new(false);
    let idle = if second.is_some() { 3600 } else { 0 };
    let clock = Waking {
        second: ran.second.saturating_add(idle),
        late: 0,
        end: MIDNIGHT.saturating_add(END),
        cut: &cut,
    };
    let again = run(
        rt,
        &place.case.tab,
        &noted,
        clock,
        Shelf::new(disk, Trouble::Nothing, &cut),
    );
    let wanted = texts(
        rt,
        &place.case.tab,
        second.unwrap_or(place.case.start()),
        END,
    );
    check_same(
        rt,
        &(place, lost),
        again.written.as_slice(),
        wanted.as_bytes(),
    );
}

// Checks that all was written that was due when the note was begun. Then checks that a run goes on
// from what the store holds, whatever a cut loses.
fn check(rt: &(impl Abort + AllocGlobal), place: &Place, ran: &Ran<'_>) {
    let due = texts(rt, &place.case.tab, place.case.start(), place.then());
    check_same(rt, place, ran.written.as_slice(), due.as_bytes());
    for lost in LOST {
        begin_again(rt, place, ran, lost);
    }
}

// Checks that the error of the call that failed is returned, and that no call is made after it.
fn check_failure(rt: &impl Abort, call: usize, ran: &Ran<'_>) {
    let Err(Failure::Stopped(AgendaStop::Clock(Interruption::Unnoted(error)))) = &ran.answer else {
        panic!(rt; "the run ended otherwise than by the call {call}");
    };
    check_same(rt, &call, error.raw_os_error(), Some(code_of(call)));
    check_same(rt, &call, ran.shelf.calls, call.saturating_add(1));
}

// Whether a run came to its end: the end of its clock, or of its fires.
fn is_over(case: &Case, ran: &Ran<'_>) -> bool {
    match &ran.answer {
        Ok(()) => case.tab.fires.is_empty(),
        Err(Failure::Stopped(AgendaStop::Clock(Interruption::Clock(Fault::Over)))) => {
            !case.tab.fires.is_empty()
        }
        Err(_) => false,
    }
}

#[test]
fn a_run_notes_what_it_ran(rt: HostRuntime) {
    for case in CASES {
        let cut = Cell::new(false);
        let ran = run_case(&rt, &case, Trouble::Nothing, &cut);
        check_same(&rt, &case, is_over(&case, &ran), true);
        check_same(&rt, &case, ran.shelf.calls, case.calls());
        let place = Place {
            case,
            number: case.notes.len().saturating_sub(1),
            made: CALLS,
        };
        check(&rt, &place, &ran);
    }
}

fn fail_each_call(rt: &(impl Abort + AllocGlobal), case: Case) {
    for call in 0..case.calls() {
        let cut = Cell::new(false);
        let ran = run_case(rt, &case, Trouble::Fails(call), &cut);
        check_failure(rt, call, &ran);
        let place = Place {
            case,
            number: call / CALLS,
            made: call % CALLS,
        };
        check(rt, &place, &ran);
    }
}

#[test]
fn each_call_fails_in_turn(rt: HostRuntime) {
    for case in CASES {
        fail_each_call(&rt, case);
    }
}

fn cut_after_each_call(rt: &(impl Abort + AllocGlobal), case: Case) {
    for call in 0..case.calls() {
        let cut = Cell::new(false);
        let ran = run_case(rt, &case, Trouble::Cut(call), &cut);
        let place = Place {
            case,
            number: call / CALLS,
            made: call % CALLS + 1,
        };
        check(rt, &place, &ran);
    }
}

#[test]
fn each_call_is_the_last_in_turn(rt: HostRuntime) {
    for case in CASES {
        cut_after_each_call(&rt, case);
    }
}
