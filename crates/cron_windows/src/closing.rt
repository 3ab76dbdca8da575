//! What closes a window.
ghost use Rattle.std.specs.Prelude.{◌≡◌, ◌≤ℤ◌, ◌<ℤ◌, ◌+ℤ◌, ◌⊎◌, ℤ, pos, false, MatchOption, int_lt};
ghost use Rattle.cron_stretches.specs.Fires.{IsInstant};
ghost use Rattle.cron_windows.specs.Windows.{EndsAt, closing_by, has_closed};

use cron_seconds::civil_seconds::CivilSeconds;
use cron_seconds::rule::Rule;
use cron_stretches::fires::{last_fire, next_fire};

/// What closes a window.
#[derive(Clone, Copy, Drop)]
pub(crate) enum Closing<C> {
    /// So many seconds that pass, at least one.
    After(u32),
    /// The next fire of a set.
    AtFires(C),
}

// The second when `seconds` seconds have passed since `opened`.
fn passed(opened: i64, seconds: u32) -> i64
    requires { opened ≤ℤ pos 253_402_207_200 }
    ensures { result ≡ opened +ℤ pos seconds }
{
    opened + i64::from(seconds)
}

// The earlier of two seconds.
fn earlier(first: i64, second: i64) -> i64
    ensures first { result ≤ℤ first }
    ensures second { result ≤ℤ second }
    ensures is { (result ≡ first) ⊎ (result ≡ second) }
{
    if second < first { second } else { first }
}

impl<C: CivilSeconds> Closing<C> {
    // The first second such that a window that opens at it or later, and at or before `second`, is
    // open at `second`. `None` if each window is that has opened by then.
    pub(crate) fn reach<R: Rule>(&self, second: i64, clock: &R::Clock) -> Option<i64>
        requires { IsInstant second }
        ensures { MatchOption result
            ((f : ℤ) → f ≤ℤ second
            → has_closed (closing_by R.at (λ set. R.fires (C.has set) clock.now) self.now) f second ≡ false)
            (λ reach. (f : ℤ) → f ≤ℤ second
            → has_closed (closing_by R.at (λ set. R.fires (C.has set) clock.now) self.now) f second
            ≡ int_lt f reach) }
    {
        match self {
            Closing::After(length) => Some(second - i64::from(*length) + 1),
            Closing::AtFires(closes) => last_fire::<C, R>(closes, second, clock),
        }
    }

    // Whether the window that opened at `opened` has closed by `second`.
    pub(crate) fn has_closed<R: Rule>(&self, opened: i64, second: i64, clock: &R::Clock) -> bool
        requires instant { IsInstant second }
        requires opened { opened ≤ℤ second }
        ensures { result
            ≡ has_closed (closing_by R.at (λ set. R.fires (C.has set) clock.now) self.now) opened second }
    {
        match self.reach::<R>(second, clock) {
            Some(reach) => opened < reach,
            None => false,
        }
    }

    // When the window closes that opened at `opened` and is open at `second`, or `to` if that is
    // earlier.
    pub(crate) fn end<R: Rule>(&self, opened: i64, second: i64, to: i64, clock: &R::Clock) -> i64
        requires instant { IsInstant second }
        requires later { second <ℤ to }
        requires instant_to { IsInstant to }
        requires opened { opened ≤ℤ second }
        requires unclosed { has_closed (closing_by R.at (λ set. R.fires (C.has set) clock.now) self.now) opened second
            ≡ false }
        ensures { EndsAt (has_closed (closing_by R.at (λ set. R.fires (C.has set) clock.now) self.now) opened)
            second to result }
    {
        match self {
            Closing::After(length) => earlier(to, passed(opened, *length)),
            Closing::AtFires(closes) => match next_fire::<C, R>(closes, second, clock) {
                Some(close) => earlier(to, close),
                None => to,
            },
        }
    }
}
