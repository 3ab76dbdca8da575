//! A clock that can be read, and waits.

ghost use Rattle.std.specs.Prelude.{⊤, Result};
ghost use Rattle.jiff_core.specs.declared.Timestamp.{Timestamp};
ghost use Rattle.cron_scheduler.specs.Runs.{Wakes};

use jiff::Timestamp;

/// A clock that shows the time, and waits until an instant. It may go back, jump ahead, or wake
/// early or late: what it shows has no condition.
pub trait AlarmClock {
    /// Why the clock can't be read, or can't wait.
    type Error;

    // a reading: the clock before it, the answer, and the clock after it
    ghost shows: { Self → Result Timestamp Self.Error → Self → Type 0 } = { λ _ _ _. Unit {0} };

    // a wait: the clock before it, the instant, the answer, and the clock after it
    ghost waits: { Self → Timestamp → Result ⊤ Self.Error → Self
        → Type 0 } = { λ _ _ _ _. Unit {0} };

    /// The instant that the clock shows.
    fn now(&mut self) -> Result<Timestamp, Self::Error>
        ensures { shows self.old result self.new };

    /// Waits until the clock shows `instant`. It may return early or late.
    fn sleep_until(&mut self, instant: Timestamp) -> Result<(), Self::Error>
        ensures { waits self.old instant result self.new };
}

/// Waits until `instant`, and returns what the clock shows then. An error if it can't wait or can't
/// be read.
pub fn wake_at<C: AlarmClock>(clock: &mut C, instant: Timestamp) -> Result<Timestamp, C::Error>
    ensures { Wakes C.shows C.waits instant clock.old result clock.new }
{
    clock.sleep_until(instant)?;
    clock.now()
}
