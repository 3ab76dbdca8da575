//! The entries of a calendar: what fires, and the text that identifies it.
ghost use Rattle.std.specs.Prelude.{◌≡◌, ◌≤◌, length};
ghost use Rattle.cron_ics.specs.Events.{copies};

use cron_plans::plan::Plan;
use cron_units::fields::ScheduleFields;
use jiff::tz::TimeZone;

/// An entry: a union of schedules in a zone.
#[derive(Clone, Copy)]
pub struct Entry<'a> {
    /// The text that identifies the entry's events from run to run.
    pub text: &'a [u8],
    /// The summary of the entry's events, which a calendar shows as their title.
    pub summary: &'a [u8],
    /// The entry's schedules: it fires when any of them does.
    pub schedules: &'a [ScheduleFields],
    /// What is left out of the fires, and where they are moved.
    pub plan: Option<Plan<'a>>,
    /// Whether each match fires once, even where the clock skips or repeats it. If not, it fires
    /// each time that the clock shows it.
    pub once: bool,
    pub zone: &'a TimeZone<'a>,
}

/// The number of `entries` whose text is `text`.
pub(crate) fn copies(entries: &[Entry<'_>], text: &[u8]) -> usize
    ensures value { result ≡ copies text.now entries.now }
    ensures bound { result ≤ length entries.now }
{
    let mut count = 0;
    for entry in entries {
        if entry.text == text {
            count += 1;
        }
    }
    count
}
