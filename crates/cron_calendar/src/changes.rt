//! The civil seconds that a zone skips, or shows twice. Each is a number of seconds from 1970-01-01
//! 00:00:00 on.
ghost use Rattle.std.specs.Prelude.{◌≡◌, ◌≢◌, ◌<◌, ◌≤◌, ℕ, IfOk, length};
ghost use Rattle.jiff.specs.Words.{plain_zone};
ghost use Rattle.cron_clocks.specs.Steady.{readings_at};
ghost use Rattle.cron_moments.specs.Civil.{seconds_in_range};
ghost use Rattle.cron_moments.specs.Readings.{readings};
ghost use Rattle.cron_calendar.specs.Changes.{AreChanges, AreShown, times_told};

use cron_clocks::stretch::Stretch;
use jiff::tz::TimeZone;
use std::alloc::{AllocError, Global};

/// Civil seconds from `first` up to but without `end`: a clock skips them, or shows each of them
/// twice.
#[derive(Clone, Copy)]
pub struct Change {
    pub first: u32,
    pub end: u32,
    /// How often a clock shows each of the civil seconds: 0 or 2 in what `changes` returns.
    pub times: u32,
}

/// How often a clock shows each civil second of a stretch, that is, of civil seconds that it reads
/// at the same offsets: never, once or twice.
pub(crate) fn times_of(stretch: &Stretch) -> u32
    ensures { (c : ℕ) → result ≡ length (readings_at c stretch.now.earlier stretch.now.later) }
{
    match (stretch.earlier, stretch.later) {
        (None, _) => 0,
        (Some(_), None) => 1,
        (Some(_), Some(_)) => 2,
    }
}

// The end of the run of civil seconds from `first` on that the clock shows `times` times each. It
// is at most `end`.
fn run_end(zone: &TimeZone<'_>, first: u32, end: u32, times: u32) -> u32
    requires { (first ≤ end) × (end ≤ seconds_in_range) }
    ensures bounds { (first ≤ result) × (result ≤ end) }
    ensures shown { AreShown (plain_zone zone.now) times first result }
    ensures whole { result < end → length (readings (plain_zone zone.now) result) ≢ times }
{
    let mut at = first;
    while at < end {
        let stretch = Stretch::at(zone, at);
        if times_of(&stretch) != times {
            return at;
        }
        at = stretch.end.min(end);
    }
    at
}

// The run of civil seconds from `first` on that the clock shows as often as `first`, perhaps once.
// It ends at `end` at the latest.
fn change_from(zone: &TimeZone<'_>, first: u32, end: u32) -> Change
    requires { (first < end) × (end ≤ seconds_in_range) }
    ensures first { result.first ≡ first }
    ensures bounds { (first < result.end) × (result.end ≤ end) }
    ensures shown { AreShown (plain_zone zone.now) result.times first result.end }
    ensures whole { result.end < end
        → length (readings (plain_zone zone.now) result.end) ≢ result.times }
{
    let stretch = Stretch::at(zone, first);
    let times = times_of(&stretch);
    let end = run_end(zone, stretch.end.min(end), end, times);
    Change { first, end, times }
}

/// The civil seconds from `first` up to but without `end` that a zone's clock skips, or shows
/// twice. Each run of them is whole within these bounds. The clock shows all other civil seconds
/// there once.
pub fn changes(
    alloc: Global,
    zone: &TimeZone<'_>,
    first: u32,
    end: u32,
) -> Result<Vec<Change>, AllocError>
    requires { end ≤ seconds_in_range }
    ensures told { IfOk result (λ changes. (c : ℕ) → first ≤ c → c < end
        → length (readings (plain_zone zone.now) c) ≡ times_told changes.items c) }
    ensures are { IfOk result
        (λ changes. AreChanges (plain_zone zone.now) end first changes.items) }
{
    let mut changes = Vec::new(alloc);
    let mut at = first;
    while at < end {
        let change = change_from(zone, at, end);
        if change.times != 1 {
            changes.push(change)?;
        }
        at = change.end;
    }
    Ok(changes)
}
