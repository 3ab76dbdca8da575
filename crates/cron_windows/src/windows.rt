//! Windows, and whether one is open at an instant.
ghost use Rattle.std.specs.Prelude.{◌≡◌, ◌<◌, ◌⊎◌, [], ◌∷◌, pos, ◌+ℤ◌, ◌≤ℤ◌, ◌<ℤ◌, true, false, MatchOption};
ghost use Rattle.std.specs.Bool.{beq};
ghost use Rattle.cron_stretches.specs.Stretches.{IsGreatest};
ghost use Rattle.cron_stretches.specs.Fires.{IsInstant, instants, second_of};
ghost use Rattle.cron_windows.specs.Windows.{AllAre, LastsSince, LastsUntil, behind, closed_by, is_open, lasting, windows_between};

use crate::closing::Closing;
use cron_seconds::civil_seconds::CivilSeconds;
use cron_seconds::rule::Rule;
use cron_stretches::fires::{last_fire, next_fire, second_of};
use cron_stretches::stretch::Stretch;
use jiff::Timestamp;
use std::marker::Model;

/// Windows of seconds: each opens at a fire of a set, and closes after a number of seconds or at
/// the next fire of another set. Contracts see the instants of the fires. An
/// instant counts as the second it lies in, counted from 1970-01-01T00:00:00Z.
#[derive(Drop)]
pub struct Windows<'a, S: CivilSeconds, C: CivilSeconds, R: Rule> {
    opens: S,
    closing: Closing<C>,
    clock: &'a R::Clock,
}

impl<'a, S: CivilSeconds, C: CivilSeconds, R: Rule> Model for Windows<'a, S, C, R> {
    ghost use Rattle.std.specs.Prelude.{◌≡◌, true};
    ghost use Rattle.cron_stretches.specs.Fires.{instants};
    ghost use Rattle.cron_windows.specs.Windows.{WindowFires, closing_by, takes_time};

    ghost Value = { WindowFires };

    ghost view = { λ w. record {
      opens = instants R.at (R.fires (S.has w.opens) w.clock.now);
      closing = closing_by R.at (λ set. R.fires (C.has set) w.clock.now) w.closing;
    } };

    ghost invariant = { λ w. takes_time w.closing ≡ true };
}

// The second right before `reach`, or `from` if that is later.
fn behind(reach: Option<i64>, from: i64) -> i64
    requires { IsInstant from }
    ensures { result ≡ behind from reach }
{
    match reach {
        Some(reach) if reach > from => reach - 1,
        _ => from,
    }
}

impl<'a, S: CivilSeconds, R: Rule> Windows<'a, S, S, R> {
    /// The windows that open at the fires of `opens` and close `seconds` seconds later. Where
    /// several are open at once, the last to close counts. `None` exactly if `seconds` is 0.
    pub fn lasting(opens: S, seconds: u32, clock: &'a R::Clock) -> Option<Windows<'a, S, S, R>>
        ensures { MatchOption result (seconds ≡ 0)
            (λ w. (0 < seconds)
            × (w ≡ lasting (instants R.at (R.fires (S.has opens) clock.now)) seconds)) }
    {
        if seconds == 0 {
            return None;
        }
        Some(Windows {
            opens,
            closing: Closing::After(seconds),
            clock,
        })
    }
}

impl<'a, S: CivilSeconds, C: CivilSeconds, R: Rule> Windows<'a, S, C, R> {
    /// The windows that open at the fires of `opens` and close at the next fire of `closes`. Where
    /// both fire at one instant, closing comes first, so that a window is open from there on.
    pub fn closed_by(opens: S, closes: C, clock: &'a R::Clock) -> Windows<'a, S, C, R>
        ensures { result ≡ closed_by (instants R.at (R.fires (S.has opens) clock.now))
            (instants R.at (R.fires (C.has closes) clock.now)) }
    {
        Windows {
            opens,
            closing: Closing::AtFires(closes),
            clock,
        }
    }

    // Whether a window is open at `second`.
    fn is_open_at(&self, second: i64) -> bool
        requires { IsInstant second }
        ensures { result ≡ is_open self.now second }
    {
        match last_fire::<S, R>(&self.opens, second, self.clock) {
            Some(opened) => !self.closing.has_closed::<R>(opened, second, self.clock),
            None => false,
        }
    }

    // The end of a window that is open at `second`, or `to` if that is earlier. It may touch
    // another window. `None` if none is open.
    fn open_until(&self, second: i64, to: i64) -> Option<i64>
        requires instants { IsInstant second × IsInstant to }
        requires later { second <ℤ to }
        ensures { MatchOption result (is_open self.now second ≡ false)
            (λ end. (second <ℤ end) × (end ≤ℤ to) × AllAre (is_open self.now) second end true) }
    {
        let Some(opened) = last_fire::<S, R>(&self.opens, second, self.clock) else {
            return None;
        };
        if self.closing.has_closed::<R>(opened, second, self.clock) {
            return None;
        }
        Some(self.closing.end::<R>(opened, second, to, self.clock))
    }

    // A second from `from` on since which windows are open up to `second`. `None` if none is open
    // at `second`.
    fn open_since(&self, from: i64, second: i64) -> Option<i64>
        requires instants { IsInstant from × IsInstant second }
        requires later { from ≤ℤ second }
        ensures { MatchOption result (is_open self.now second ≡ false)
            (λ first. (from ≤ℤ first) × (first ≤ℤ second)
            × AllAre (is_open self.now) first (second +ℤ pos 1) true) }
    {
        let Some(opened) = last_fire::<S, R>(&self.opens, second, self.clock) else {
            return None;
        };
        if self.closing.has_closed::<R>(opened, second, self.clock) {
            return None;
        }
        if opened <= from {
            return Some(from);
        }
        // all fires past this second, and up to `second`, opened windows that are still open there
        let behind = behind(self.closing.reach::<R>(second, self.clock), from);
        next_fire::<S, R>(&self.opens, behind, self.clock)
    }

    // Until when windows are open from `second` on, at most until `to`.
    fn open_end(&self, second: i64, to: i64) -> i64
        requires instants { IsInstant second × IsInstant to }
        requires later { second <ℤ to }
        requires is { is_open self.now second ≡ true }
        ensures { LastsUntil (is_open self.now) true second to result }
    {
        let mut end = second;
        while end < to {
            match self.open_until(end, to) {
                Some(later) => end = later,
                None => return end,
            }
        }
        end
    }

    // Since when windows are open up to `second`, at the earliest since `from`.
    fn open_start(&self, from: i64, second: i64) -> i64
        requires instants { IsInstant from × IsInstant second }
        requires later { from ≤ℤ second }
        requires is { is_open self.now second ≡ true }
        ensures { LastsSince (is_open self.now) true from second result }
    {
        let mut first = second;
        while from < first {
            match self.open_since(from, first - 1) {
                Some(earlier) => first = earlier,
                None => return first,
            }
        }
        first
    }

    // Until when no window is open from `second` on, at most until `to`.
    fn closed_end(&self, second: i64, to: i64) -> i64
        requires instants { IsInstant second × IsInstant to }
        requires later { second <ℤ to }
        requires is { is_open self.now second ≡ false }
        ensures { LastsUntil (is_open self.now) false second to result }
    {
        match next_fire::<S, R>(&self.opens, second, self.clock) {
            Some(fire) if fire < to => fire,
            _ => to,
        }
    }

    // Since when no window is open up to `second`, at the earliest since `from`.
    fn closed_start(&self, from: i64, second: i64) -> i64
        requires instants { IsInstant from × IsInstant second }
        requires later { from ≤ℤ second }
        requires is { is_open self.now second ≡ false }
        ensures { LastsSince (is_open self.now) false from second result }
    {
        let Some(opened) = last_fire::<S, R>(&self.opens, second, self.clock) else {
            return from;
        };
        let since = opened.max(from);
        if self.closing.has_closed::<R>(opened, since, self.clock) {
            return from;
        }
        self.closing.end::<R>(opened, since, second, self.clock)
    }

    // Until when `answer` stays the answer from `second` on, at most until `to`.
    fn end(&self, second: i64, to: i64, answer: bool) -> i64
        requires instants { IsInstant second × IsInstant to }
        requires later { second <ℤ to }
        requires is { is_open self.now second ≡ answer }
        ensures { LastsUntil (is_open self.now) answer second to result }
    {
        if answer {
            self.open_end(second, to)
        } else {
            self.closed_end(second, to)
        }
    }

    // Since when `answer` is the answer up to `second`, at the earliest since `from`.
    fn start(&self, from: i64, second: i64, answer: bool) -> i64
        requires instants { IsInstant from × IsInstant second }
        requires later { from ≤ℤ second }
        requires is { is_open self.now second ≡ answer }
        ensures { LastsSince (is_open self.now) answer from second result }
    {
        if answer {
            self.open_start(from, second)
        } else {
            self.closed_start(from, second)
        }
    }

    // The greatest stretch from `second` on, up to `to`.
    pub(crate) fn stretch_from(&self, second: i64, to: i64) -> Stretch<bool>
        requires instants { IsInstant second × IsInstant to }
        requires later { second <ℤ to }
        ensures first { result.first ≡ second }
        ensures lasts { LastsUntil (is_open self.now) result.value second to result.end }
    {
        let value = self.is_open_at(second);
        Stretch {
            first: second,
            end: self.end(second, to, value),
            value,
        }
    }

    // The first second from `second` on and before `to` where a window is open. `None` if none
    // is.
    fn first_open(&self, second: i64, to: i64) -> Option<i64>
        requires instants { IsInstant second × IsInstant to }
        requires later { second <ℤ to }
        ensures { MatchOption result (AllAre (is_open self.now) second to false)
            (λ first. (second ≤ℤ first) × (first <ℤ to) × AllAre (is_open self.now) second first false
            × (is_open self.now first ≡ true)) }
    {
        if self.is_open_at(second) {
            return Some(second);
        }
        let first = self.closed_end(second, to);
        if first < to { Some(first) } else { None }
    }

    // The first window from `second` on, cut at `to`. `None` if there is none before `to`.
    pub(crate) fn window_from(&self, second: i64, to: i64) -> Option<Stretch<bool>>
        requires { IsInstant second × IsInstant to }
        ensures { MatchOption result (windows_between (is_open self.now) second to ≡ [])
            (λ window. (second <ℤ window.end) × (window.end ≤ℤ to)
            × (windows_between (is_open self.now) second to
            ≡ window ∷ windows_between (is_open self.now) window.end to)) }
    {
        if second >= to {
            return None;
        }
        match self.first_open(second, to) {
            Some(first) => Some(Stretch {
                first,
                end: self.open_end(first, to),
                value: true,
            }),
            None => None,
        }
    }

    /// Whether a window is open at an instant.
    pub fn is_open(&self, at: Timestamp) -> bool
        ensures { result ≡ is_open self.now (second_of at.nanosecond) }
    {
        self.is_open_at(second_of(at))
    }

    /// Whether a window is open at `at`, since when and until when: the greatest stretch of one
    /// answer around `at`, cut at `from` and `to`. `None` if `at` is before `from`, or not before
    /// `to`. The `value` of the stretch is true if a window is open.
    pub fn state_at(&self, from: Timestamp, at: Timestamp, to: Timestamp) -> Option<Stretch<bool>>
        ensures { MatchOption result
            ((second_of at.nanosecond <ℤ second_of from.nanosecond)
            ⊎ (second_of to.nanosecond ≤ℤ second_of at.nanosecond))
            (IsGreatest beq (is_open self.now) (second_of from.nanosecond) (second_of at.nanosecond)
            (second_of to.nanosecond)) }
    {
        let (from, at, to) = (second_of(from), second_of(at), second_of(to));
        if at < from || at >= to {
            return None;
        }
        let ahead = self.stretch_from(at, to);
        let first = self.start(from, at, ahead.value);
        Some(Stretch { first, ..ahead })
    }
}
