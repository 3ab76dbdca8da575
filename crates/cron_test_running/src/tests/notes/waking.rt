//! A clock that wakes `late` seconds late, up to an end or a cut, and files that don't change.

use cron_scheduler::AlarmClock;
use cron_tab_running::Changing;
use jiff::Timestamp;
use std::cell::Cell;

/// Why the clock fails.
#[derive(Clone, Copy, Debug, PartialEq, Eq)]
pub(super) enum Fault {
    /// It would wait until after its end, or a cut has come.
    Over,
    /// It shows a second outside of all instants.
    NoInstant,
}

/// A clock that shows `second`, in seconds since 1970, and wakes `late` seconds late. It waits for
/// nothing after `end`, or once `cut` is set.
#[derive(Drop)]
pub(super) struct Waking<'a> {
    pub(super) second: i64,
    pub(super) late: i64,
    pub(super) end: i64,
    pub(super) cut: &'a Cell<bool>,
}

impl AlarmClock for Waking<'_> {
    type Error = Fault;

    fn now(&mut self) -> Result<Timestamp, Fault> {
        Timestamp::from_second(self.second).map_err(|_| Fault::NoInstant)
    }

    fn sleep_until(&mut self, instant: Timestamp) -> Result<(), Fault> {
        let second = instant.as_second();
        if self.cut.get() || second > self.end {
            return Err(Fault::Over);
        }
        self.second = second.saturating_add(self.late).max(self.second);
        Ok(())
    }
}

/// Files that never change.
#[derive(Drop)]
pub(super) struct Unchanged;

impl Changing for Unchanged {
    fn have_changed(&mut self) -> bool {
        false
    }
}
