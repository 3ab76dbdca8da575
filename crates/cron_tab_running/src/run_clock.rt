//! A clock that notes before each wait how far a run has come, and looks at the files after the
//! wait. A note has the instant up to which everything due was run, the noted instant.

ghost use Rattle.std.specs.Prelude.{◌≡◌, Bool, List, ℕ, map};
ghost use Rattle.jiff_core.specs.declared.Timestamp.{Timestamp};
ghost use Rattle.cron_tab_running.specs.Clocks.{Glances, IsTold, Notes, NotesOnce, WaitsOn, is_due, is_settled, is_waited};

use crate::noted::{Noted, later};
use cron_notes::replace::replace;
use cron_notes::store::Store;
use cron_scheduler::AlarmClock;
use jiff::Timestamp;
use std::alloc::{AllocError, Global};
use std::io::{self, ErrorKind};

/// A clock that receives the entries of a run before the run begins.
pub trait EntryClock: AlarmClock {
    // one call: the clock before it, the instant up to which all was run, the entries, and the
    // clock after it
    ghost begins: { Self → Timestamp → List (List ℕ) → Self → Type 0 } = { λ _ _ _ _. Unit {0} };

    /// Receives the key of each entry (its zone's name, a tab and its line), and the instant up to
    /// which all fires of new entries count as run.
    fn begin(&mut self, until: Timestamp, entries: Vec<Vec<u8>>)
        ensures { begins self.old until (map (λ e. e.items) entries.items) self.new };
}

/// Files that may change while they are used.
pub trait Changing {
    // one question: the files before it, the answer, and the files after it
    ghost changes: { Self → Bool → Self → Type 0 } = { λ _ _ _. Unit {0} };

    /// Returns true if one of the files has changed since the files were read.
    fn have_changed(&mut self) -> bool
        ensures { changes self.old result self.new };
}

/// Why a clock ends a run.
#[derive(Debug, Drop)]
pub enum Interruption<E> {
    /// The clock couldn't be read, or couldn't wait.
    Clock(E),
    /// The note of how far the run has come couldn't be written.
    Unnoted(io::Error),
    /// The files have changed. Everything due up to the noted instant was run.
    Changed,
}

/// Where notes are written.
#[derive(Drop)]
pub struct Notebook<'a, S> {
    pub store: S,
    pub path: &'a str,
}

/// A clock that notes before each wait how far a run has come, and looks at the files after the
/// wait.
#[derive(Drop)]
pub struct RunClock<'a, C, F, S> {
    pub alloc: Global,
    pub clock: C,
    pub files: F,
    /// `None` if no notes are written.
    pub notebook: Option<Notebook<'a, S>>,
    /// The instant up to which everything due was run, and the entries that this holds for.
    pub noted: Noted,
    /// The instant that the last wait with a note was until, or `None` if the run has had none. A
    /// further wait until the same instant writes no note, since nothing was run in between.
    pub until: Option<Timestamp>,
    /// The time that the clock showed at the last look that read the files or found them unchanged.
    /// If the clock has gone back, it is the latest time that it showed.
    pub seen: Timestamp,
}

// Returns true if the last wait with a note, at `until`, was until `instant` too.
fn is_waited(until: &Option<Timestamp>, instant: Timestamp) -> bool
    ensures { result ≡ is_waited until.now instant }
{
    match until {
        Some(until) => until.as_nanosecond() == instant.as_nanosecond(),
        None => false,
    }
}

// Returns true if `instant` is at or before the noted instant.
fn is_due(noted: &Noted, instant: Timestamp) -> bool
    ensures { result ≡ is_due noted.now instant }
{
    instant.as_nanosecond() <= noted.until.as_nanosecond()
}

// Writes a note to the notebook's path, in place of the last one.
fn write_note<S: Store>(
    alloc: Global,
    noted: &Noted,
    notebook: &mut Notebook<'_, S>,
) -> io::Result<()>
    ensures { Notes S.does noted.now notebook.old result notebook.new }
{
    match noted.text(alloc) {
        Ok(text) => replace(alloc, notebook.path, text.as_slice(), &mut notebook.store),
        Err(AllocError) => Err(io::Error::from(ErrorKind::OutOfMemory)),
    }
}

impl<C: AlarmClock, F: Changing, S: Store> RunClock<'_, C, F, S> {
    /// Notes how far the run has come, if there is a notebook.
    pub fn note(&mut self) -> io::Result<()>
        ensures { NotesOnce S.does self.old result self.new }
    {
        match &mut self.notebook {
            Some(notebook) => write_note(self.alloc, &self.noted, notebook),
            None => Ok(()),
        }
    }

    // Returns true if nothing needs to be noted before a wait until `instant`.
    fn is_settled(&self, instant: Timestamp) -> bool
        ensures { result ≡ is_settled self.now instant }
    {
        is_waited(&self.until, instant) || is_due(&self.noted, instant)
    }

    // Notes before a wait until `instant` how far the run has come. It writes no note if the last
    // wait was until the same instant, or if `instant` is due already: then its fires are to be run
    // first.
    fn note_before(&mut self, instant: Timestamp) -> io::Result<()>
        ensures { IsTold S.does instant self.old result self.new }
    {
        if self.is_settled(instant) {
            return Ok(());
        }
        match self.note() {
            Ok(()) => {
                self.until = Some(instant);
                Ok(())
            }
            Err(error) => Err(error),
        }
    }

    /// Reads the clock, and then looks whether the files have changed. If so, it returns
    /// `Interruption::Changed`.
    pub(crate) fn glance(&mut self) -> Result<(), Interruption<C::Error>>
        ensures { Glances C.shows F.changes self.old result self.new }
    {
        let now = match self.clock.now() {
            Ok(now) => now,
            Err(error) => return Err(Interruption::Clock(error)),
        };
        if self.files.have_changed() {
            return Err(Interruption::Changed);
        }
        self.seen = later(self.noted.until, now);
        Ok(())
    }

    // Waits until `instant`, and then looks whether the files have changed, as `glance` does. It
    // doesn't look if `instant` was due already: then its fires are to be run first.
    fn wait(&mut self, instant: Timestamp) -> Result<(), Interruption<C::Error>>
        ensures { WaitsOn C.shows C.waits F.changes instant self.old result self.new }
    {
        if let Err(error) = self.clock.sleep_until(instant) {
            return Err(Interruption::Clock(error));
        }
        if is_due(&self.noted, instant) {
            return Ok(());
        }
        self.glance()
    }
}

impl<C: AlarmClock, F: Changing, S: Store> AlarmClock for RunClock<'_, C, F, S> {
    type Error = Interruption<C::Error>;

    ghost use Rattle.cron_tab_running.specs.Clocks.{Shows, Waits};

    ghost shows = { Shows C.shows };

    ghost waits = { Waits C.shows C.waits F.changes S.does };

    fn now(&mut self) -> Result<Timestamp, Interruption<C::Error>> {
        match self.clock.now() {
            Ok(now) => {
                self.noted.until = later(self.noted.until, now);
                Ok(now)
            }
            Err(error) => Err(Interruption::Clock(error)),
        }
    }

    fn sleep_until(&mut self, instant: Timestamp) -> Result<(), Interruption<C::Error>> {
        match self.note_before(instant) {
            Ok(()) => self.wait(instant),
            Err(error) => Err(Interruption::Unnoted(error)),
        }
    }
}

impl<C: AlarmClock, F: Changing, S: Store> EntryClock for RunClock<'_, C, F, S> {
    ghost use Rattle.cron_tab_running.specs.Clocks.{TakesEntries};

    ghost begins = { TakesEntries };

    fn begin(&mut self, until: Timestamp, entries: Vec<Vec<u8>>) {
        self.noted = Noted { until, entries };
        self.until = None;
    }
}
