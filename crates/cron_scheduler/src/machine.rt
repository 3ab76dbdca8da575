//! The clock of the machine.

ghost use Rattle.std.specs.Prelude.{◌≡◌, ◌≤ℤ◌, ◌-ℤ◌, pos};
ghost use Rattle.std.specs.Duration.{as_nanos};

use crate::clock::AlarmClock;
use jiff::{Error, Timestamp};
use std::rt::Clock;
use std::thread;
use std::time::Duration;

/// The clock of the machine that the program runs on. A wait ends after a minute at the latest. A
/// run then reads the clock and waits again, so it follows a clock that is set meanwhile.
#[derive_where(Clone, Copy)]
pub struct MachineClock<'a, R>(pub &'a R);

/// The longest sleep, in nanoseconds.
const MINUTE: i128 = 60_000_000_000;

// How long to sleep from `now`: until `instant`, but at most a minute. It is 0 if `instant` isn't
// later.
fn sleep_between(now: Timestamp, instant: Timestamp) -> Duration
    ensures past { instant.nanosecond ≤ℤ now.nanosecond → as_nanos result ≡ 0 }
    ensures near { now.nanosecond ≤ℤ instant.nanosecond
        → (instant.nanosecond -ℤ now.nanosecond) ≤ℤ pos 60_000_000_000
        → pos (as_nanos result) ≡ (instant.nanosecond -ℤ now.nanosecond) }
    ensures far { pos 60_000_000_000 ≤ℤ (instant.nanosecond -ℤ now.nanosecond)
        → as_nanos result ≡ 60_000_000_000 }
{
    let nanoseconds = instant.as_nanosecond() - now.as_nanosecond();
    Duration::from_nanos(nanoseconds.clamp(0, MINUTE) as u64)
}

impl<R: Clock> AlarmClock for MachineClock<'_, R> {
    type Error = Error;

    fn now(&mut self) -> Result<Timestamp, Error> {
        Timestamp::now(self.0)
    }

    fn sleep_until(&mut self, instant: Timestamp) -> Result<(), Error> {
        let now = Timestamp::now(self.0)?;
        thread::sleep(self.0, sleep_between(now, instant));
        Ok(())
    }
}
