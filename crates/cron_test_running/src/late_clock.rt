//! A clock that wakes late. Reading it and waking take no time.

use cron_scheduler::AlarmClock;
use cron_tab_running::EntryClock;
use jiff::{Error, Timestamp};

/// How late the clock wakes, in seconds: by more than an hour, so that two fires of a fold come due
/// at once.
const LATE: i64 = 4200;

/// A clock that shows a second since 1970, and goes on only when it is waited for.
#[derive(Drop)]
pub(crate) struct LateClock {
    second: i64,
}

impl LateClock {
    /// Returns a clock that shows this second since 1970 at first.
    pub(crate) fn new(second: i64) -> LateClock {
        LateClock { second }
    }
}

impl AlarmClock for LateClock {
    type Error = Error;

    fn now(&mut self) -> Result<Timestamp, Error> {
        Timestamp::from_second(self.second)
    }

    fn sleep_until(&mut self, instant: Timestamp) -> Result<(), Error> {
        self.second = instant.as_second().saturating_add(LATE);
        Ok(())
    }
}

impl EntryClock for LateClock {
    fn begin(&mut self, _until: Timestamp, _entries: Vec<Vec<u8>>) {}
}
