//! Rules for clock changes: which fires a set of civil seconds has by a clock, and in what order.
ghost use Rattle.std.specs.Prelude.{◌≡◌, ℤ, pos, ◌*ℤ◌, List, [], Bool};
ghost use Rattle.std.specs.Iterator.{YieldsFirst};
ghost use Rattle.cron_time.specs.Seconds.{Seconds};
ghost use Rattle.cron_seconds.specs.Rules.{AreInOrder, IsFirstOf, IsOrder, all_after, all_back, all_before, all_past};

use crate::civil_seconds::CivilSeconds;
use jiff::Timestamp;

/// The rule that says when a set of civil seconds fires by a clock. A call for a fire returns
/// `None` exactly if there is no such fire.
pub trait Rule {
    /// A clock, which gives its offset from UTC, such as a zone.
    type Clock;

    /// A fire, such as a civil second with the clock's offset.
    type Fire: Copy;

    /// The place that a run has reached, and what the run knows there.
    type Stand: Drop;

    // the fires of a set by a clock, in order
    ghost fires: { Seconds → Self.Clock → List Self.Fire };

    // the instant of a fire, in seconds since 1970-01-01T00:00:00Z
    ghost at: { Self.Fire → ℤ };

    // whether the second fire is past the first
    ghost is_past: { Self.Fire → Self.Fire → Bool };

    // the fires past a stand
    ghost left: { Seconds → Self.Clock → Self.Stand → List Self.Fire };

    // the statement that what a stand knows is true
    ghost stands: { Seconds → Self.Clock → Self.Stand → Type 0 };

    /// The instant of a fire, in seconds since 1970-01-01T00:00:00Z.
    fn instant_of(fire: &Self::Fire) -> i64
        ensures { result ≡ at fire.now };

    /// The first fire after the instant `now`.
    fn first_after<S: CivilSeconds>(
        set: &S,
        now: Timestamp,
        clock: &Self::Clock,
    ) -> Option<Self::Fire>
        ensures { IsFirstOf
            (all_after at (fires (S.has set.now) clock.now) now.nanosecond)
            (all_past is_past (fires (S.has set.now) clock.now)) result };

    /// The first fire past `fire`, which needn't be a fire of the set.
    fn first_past<S: CivilSeconds>(
        set: &S,
        fire: &Self::Fire,
        clock: &Self::Clock,
    ) -> Option<Self::Fire>
        ensures { IsFirstOf
            (all_past is_past (fires (S.has set.now) clock.now) fire.now)
            (all_past is_past (fires (S.has set.now) clock.now)) result };

    /// The last fire whose instant is at or before `now`.
    fn last_by<S: CivilSeconds>(set: &S, now: Timestamp, clock: &Self::Clock) -> Option<Self::Fire>
        ensures { IsFirstOf
            (all_back at (fires (S.has set.now) clock.now) now.nanosecond)
            (all_before is_past (fires (S.has set.now) clock.now)) result };

    /// The last fire before `fire`, which needn't be a fire of the set.
    fn last_before<S: CivilSeconds>(
        set: &S,
        fire: &Self::Fire,
        clock: &Self::Clock,
    ) -> Option<Self::Fire>
        ensures { IsFirstOf
            (all_before is_past (fires (S.has set.now) clock.now) fire.now)
            (all_before is_past (fires (S.has set.now) clock.now)) result };

    /// The place of a new run: before its first fire after `start`.
    fn stand_after(start: Timestamp, clock: &Self::Clock) -> Self::Stand
        ensures left { (s : Seconds) → left s clock.now result
            ≡ all_after at (fires s clock.now) start.nanosecond }
        ensures stands { (s : Seconds) → stands s clock.now result };

    /// The place of a new run: before its first fire past `fire`.
    fn stand_past(fire: &Self::Fire, clock: &Self::Clock) -> Self::Stand
        ensures left { (s : Seconds) → left s clock.now result
            ≡ all_past is_past (fires s clock.now) fire.now }
        ensures stands { (s : Seconds) → stands s clock.now result };

    /// The place of a run that has ended: no fire is left.
    fn stand_at_the_end(clock: &Self::Clock) -> Self::Stand
        ensures left { (s : Seconds) → left s clock.now result ≡ [] }
        ensures stands { (s : Seconds) → stands s clock.now result };

    /// Returns the first fire past `stand`, and moves `stand` past that fire. `None` if no fire is
    /// left. `cursor` is what searches of the set have learned.
    fn next<S: CivilSeconds>(
        set: &S,
        clock: &Self::Clock,
        stand: &mut Self::Stand,
        cursor: &mut S::Cursor,
    ) -> Option<Self::Fire>
        requires stands { stands (S.has set.now) clock.now stand.old }
        requires knows { S.knows set.now cursor.old }
        ensures first { YieldsFirst (left (S.has set.now) clock.now) stand.old result stand.new }
        ensures stands { stands (S.has set.now) clock.now stand.new }
        ensures knows { S.knows set.now cursor.new };

    /// A law, for a caller's proof: the fires come in order, and instants never decrease.
    fn in_order()
        ensures order { IsOrder is_past }
        ensures fires { (s : Seconds) (clock : Self.Clock) → AreInOrder at is_past (fires s clock) }
        ensures left { (s : Seconds) (clock : Self.Clock) (stand : Self.Stand)
            → AreInOrder at is_past (left s clock stand) };
}
