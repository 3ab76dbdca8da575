//! The clock of a history, which is a list of eras: zones that hold one after another.

ghost use Rattle.std.specs.Prelude.{◌≡◌, ◌+◌, ◌<◌, ◌<ℤ◌, ◌≤ℤ◌, ℤ, neg_ℤ, pos, false, [], MatchOption, length};
ghost use Rattle.jiff_core.specs.Calendar.{IsBetween};
ghost use Rattle.cron_dues.specs.Steady.{IsKept};
ghost use Rattle.jiff_tz.specs.declared.timezone.TimeZone.{TimeZone};
ghost use Rattle.cron_dues.specs.Clock.Due.{clock_of};
ghost use Rattle.cron_c.specs.Histories.{IsHistory, IsZoneAt, has_started};

use crate::era::{CronEra, is_history, zone_at};
use crate::places::place_of;
use cron_dues::clock::Clock;
use cron_dues::steady::Steady;

/// The clock of a history: at each second the clock of the era that holds it. Before the first era
/// starts, it is the clock of the first era.
#[derive(Clone, Copy)]
pub struct HistoryClock<'a> {
    eras: &'a [CronEra],
    ghost history: { ∥ IsHistory eras.now ∥₁ },
    ghost some: { 0 < length eras.now },
}

/// The clock of `eras`. `None` if they are no history, or if there are none.
pub fn clock_of_eras(eras: &[CronEra]) -> Option<HistoryClock<'_>>
    ensures { MatchOption result
        (IsHistory eras.now → eras.now ≡ [])
        (λ clock. (clock.eras.now ≡ eras.now) × IsHistory eras.now) }
{
    if eras.is_empty() {
        return None;
    }
    if !is_history(eras) {
        return None;
    }
    Some(HistoryClock { eras })
}

// The UTC second that ends the era at place `at`, which isn't part of it, or `most` if that is
// less. The last era has no end.
fn end_of_era(eras: &[CronEra], at: usize, most: i64) -> i64
    requires { at < length eras.now }
    ensures most { result ≤ℤ most }
    ensures held { (k : ℤ) → k <ℤ result → has_started eras.now (at + 1) k ≡ false }
    ensures later { (k : ℤ) → k <ℤ most → has_started eras.now (at + 1) k ≡ false → k <ℤ result }
{
    match eras.get(at + 1) {
        Some(next) => {
            if next.starts < most {
                next.starts
            } else {
                most
            }
        }
        None => most,
    }
}

// The offset of the clock of the era at place `at` at the UTC second `second`, and the end of the
// time that it keeps that offset.
fn steady_in_era(eras: &[CronEra], at: usize, second: i64) -> Steady
    requires history { ∥ IsHistory eras.now ∥₁ }
    requires within { at < length eras.now }
    requires bound { IsBetween (neg_ℤ (pos 1_000_000)) (pos 8_000_000_000) second }
    ensures kept { (z : TimeZone) → IsZoneAt eras.now at z
        → IsKept (clock_of z) second result.end result.offset.seconds }
    ensures later { second <ℤ result.end }
{
    zone_at(eras, at).unwrap().steady_from(second)
}

impl<'a> Clock for HistoryClock<'a> {
    ghost use Rattle.cron_c.specs.Inner.HistoryClocks.{held_clock};

    ghost offsets = { λ h. held_clock h.eras.now h.history };

    fn steady_from(&self, second: i64) -> Steady {
        let at = place_of(self.eras, second);
        let steady = steady_in_era(self.eras, at, second);
        Steady {
            offset: steady.offset,
            end: end_of_era(self.eras, at, steady.end),
        }
    }
}
