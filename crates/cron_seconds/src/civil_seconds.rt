//! Sets of civil seconds: only what a search for fires needs of a set.
ghost use Rattle.std.specs.Prelude.{◌≡◌, ℕ, ◌≤◌, ◌<◌, ℤ, Bool, true, false, IfSome, IsTrue};
ghost use Rattle.cron_units.specs.Nearest.{IsNearest};
ghost use Rattle.cron_moments.specs.Civil.{seconds_in_range};
ghost use Rattle.cron_time.specs.Search.Inner.Numbers.{beyond};
ghost use Rattle.cron_time.specs.Seconds.{is_match};

use cron_units::way::Way;

/// A set of civil seconds, the times of fires. The range is 1970-01-01 00:00:00 to 2100-12-31
/// 23:59:59. A reference to a set is a set too.
pub trait CivilSeconds: Drop {
    /// Whether a number is in the set, in seconds since 1970-01-01 00:00:00 on the clock. Numbers
    /// past the range don't count.
    ghost has: { Self → ℕ → Bool };

    /// What a search has learned, so that the next search is faster.
    type Cursor: Drop;

    ghost knows: { Self → Self.Cursor → Type 0 };

    /// The nearest civil second of the set from `from` on. `Way::Ahead` gives the first one at or
    /// after `from`, and `Way::Back` the last one at or before it. `None` exactly if there is none.
    fn nearest(&self, way: Way, from: i64) -> Option<u32>
        ensures nearest { IsNearest way (is_match (has self.now)) from result }
        ensures bound { IfSome result (λ n. n < seconds_in_range) };

    /// A cursor that knows nothing yet.
    fn begin() -> Self::Cursor
        ensures { (s : Self) → knows s result };

    /// The nearest civil second of the set past `second` in direction `way`, or `None` if there is
    /// none. `second` is in the set itself. `cursor` comes from `begin` or an earlier call.
    fn past(&self, way: Way, second: u32, cursor: &mut Self::Cursor) -> Option<u32>
        requires matching { is_match (has self.now) second ≡ true }
        requires knows { knows self.now cursor.old }
        ensures nearest { IsNearest way (is_match (has self.now)) (beyond way second) result }
        ensures bound { IfSome result (λ n. n < seconds_in_range) }
        ensures knows { knows self.now cursor.new };

    /// Returns true only if it is known, without a search, that the set has no civil second at or
    /// after `first` and before `end`.
    fn is_clear(&self, first: u32, end: u32) -> bool
        ensures { IsTrue result → (k : ℕ) → first ≤ k → k < end → is_match (has self.now) k ≡ false }
    {
        false
    }
}

impl<'a, S: CivilSeconds> CivilSeconds for &'a S {
    ghost has = { λ lent. S.has lent.now };

    type Cursor = S::Cursor;

    ghost knows = { λ lent cursor. S.knows lent.now cursor };

    #[inline(always)]
    fn nearest(&self, way: Way, from: i64) -> Option<u32> {
        S::nearest(self, way, from)
    }

    #[inline(always)]
    fn begin() -> S::Cursor {
        S::begin()
    }

    #[inline(always)]
    fn past(&self, way: Way, second: u32, cursor: &mut S::Cursor) -> Option<u32> {
        S::past(self, way, second, cursor)
    }

    #[inline(always)]
    fn is_clear(&self, first: u32, end: u32) -> bool {
        S::is_clear(self, first, end)
    }
}
