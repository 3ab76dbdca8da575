//! The next due fire, by what is known after the previous one. A civil second that matches is due
//! when the clock first shows it or a later one.
ghost use Rattle.std.specs.Prelude.{◌≡◌, ℕ, ◌<◌, ◌≤◌, pos, ◌≤ℤ◌, ◌<ℤ◌, false, IfSome};
ghost use Rattle.cron_moments.specs.Civil.{seconds_in_range};
ghost use Rattle.cron_time.specs.Seconds.{is_match};
ghost use Rattle.cron_units.specs.Nearest.{IsNearest};
ghost use Rattle.cron_units.specs.declared.way.Way.TheVariants.{Ahead};
ghost use Rattle.cron_dues.specs.Clock.Due.{due};
ghost use Rattle.cron_dues.specs.Known.{AreDueFrom, IsKnown, IsNextDue, IsPastIfKnown};
ghost use Rattle.cron_dues.specs.Reached.{IsAhead, ends_before};

use crate::clock::Clock;
use crate::fire::{DueFire, due_fire};
use crate::steady::DueSpan;
use crate::way_to::span_of;
use cron_seconds::civil_seconds::CivilSeconds;
use cron_units::way::Way;
use jiff::tz::Offset;

/// What is known of the civil seconds from some number on and before `end`: each is due at
/// `offset`. One that the clock shows is due then; one that it skips is due when it shows `first`.
#[derive(Clone, Copy)]
pub struct Known {
    pub first: u32,
    pub end: u32,
    pub offset: Offset,
}

impl Known {
    /// The value if nothing is known.
    pub fn nothing() -> Known
        ensures { result.end ≡ 0 }
    {
        Known {
            first: 0,
            end: 0,
            offset: Offset::UTC,
        }
    }
}

// `number`, or the nearest number that a `u32` can hold.
fn clamp(number: i64) -> u32
    ensures low { (k : ℕ) → result ≤ k → k < 4_294_967_295 → number ≤ℤ pos k }
    ensures high { (k : ℕ) → k < result → pos k <ℤ number }
{
    if number < 0 {
        return 0;
    }
    if number > i64::from(u32::MAX) {
        return u32::MAX;
    }
    number as u32
}

// What is known from `second` on, by the span of instants where `second` is due.
fn known_of<C: Clock>(_clock: &C, second: u32, span: &DueSpan) -> Known
    requires range { second < seconds_in_range }
    requires ahead { IsAhead (C.offsets _clock.now) second span.now.from span.now.steady }
    requires shown { ends_before span.now.steady second ≡ false }
    ensures due { AreDueFrom (C.offsets _clock.now) (pos second) result }
    ensures own { second < result.end }
{
    Known {
        first: clamp(span.steady.shown(span.from)),
        end: clamp(span.steady.shown(span.steady.end)),
        offset: span.steady.offset,
    }
}

// Queries the clock, and sets `known` to what is known from `second` on, `second` included.
#[inline(never)]
fn learn<C: Clock>(clock: &C, second: u32, known: &mut Known)
    requires { second < seconds_in_range }
    ensures due { AreDueFrom (C.offsets clock.now) (pos second) known.new }
    ensures own { second < known.new.end }
{
    *known = known_of(clock, second, &span_of(clock, second));
}

// Makes sure that `known` includes `second`. Queries the clock only if it doesn't yet.
#[inline(always)]
fn extend<C: Clock>(clock: &C, second: u32, known: &mut Known)
    requires range { second < seconds_in_range }
    requires known { AreDueFrom (C.offsets clock.now) (pos second) known.old }
    ensures due { AreDueFrom (C.offsets clock.now) (pos second) known.new }
    ensures own { second < known.new.end }
{
    if second >= known.end {
        learn(clock, second, known);
    }
}

// The due fire of `second`, which `known` includes.
#[inline(always)]
fn known_due<C: Clock>(_clock: &C, second: u32, known: &Known) -> DueFire
    requires range { second < seconds_in_range }
    requires known { AreDueFrom (C.offsets _clock.now) (pos second) known.now }
    requires own { second < known.now.end }
    ensures { result ≡ due (C.offsets _clock.now) second }
{
    due_fire(second, known.first.saturating_sub(second), known.offset)
}

/// The due fire of `second`. Something may be known from `second` on before the call, and more
/// after it. `known` is passed by reference: a copy at each fire would wait for what the previous
/// fire stored.
#[inline(always)]
pub fn due_ahead<C: Clock>(clock: &C, second: u32, known: &mut Known) -> DueFire
    requires range { second < seconds_in_range }
    requires known { AreDueFrom (C.offsets clock.now) (pos second) known.old }
    ensures due { result ≡ due (C.offsets clock.now) second }
    ensures known { AreDueFrom (C.offsets clock.now) (pos second) known.new }
    ensures own { second < known.new.end }
{
    extend(clock, second, known);
    known_due(clock, second, known)
}

// The first match at or after `from`, or `None` if there is none. If something is known, `from - 1`
// is a match, and the search uses what `cursor` has learned.
#[inline(always)]
fn next_match<S: CivilSeconds>(
    set: &S,
    from: i64,
    known: &Known,
    cursor: &mut S::Cursor,
) -> Option<u32>
    requires known { IsPastIfKnown (S.has set.now) from known.now }
    requires knows { S.knows set.now cursor.old }
    ensures nearest { IsNearest Ahead (is_match (S.has set.now)) from result }
    ensures bound { IfSome result (λ n. n < seconds_in_range) }
    ensures knows { S.knows set.now cursor.new }
{
    if known.end == 0 {
        return set.nearest(Way::Ahead, from);
    }
    set.past(Way::Ahead, (from - 1) as u32, cursor)
}

/// The due fire of the first match at or after `from`, or `None` if there is none. If something is
/// known, `from - 1` is a match.
#[inline(always)]
pub(crate) fn next_due<S: CivilSeconds, C: Clock>(
    set: &S,
    clock: &C,
    from: i64,
    known: &mut Known,
    cursor: &mut S::Cursor,
) -> Option<DueFire>
    requires known { IsKnown (S.has set.now) (C.offsets clock.now) from known.old }
    requires knows { S.knows set.now cursor.old }
    ensures next { IsNextDue (S.has set.now) (C.offsets clock.now) from result known.new }
    ensures knows { S.knows set.now cursor.new }
{
    let Some(second) = next_match(set, from, known, cursor) else {
        return None;
    };
    Some(due_ahead(clock, second, known))
}
