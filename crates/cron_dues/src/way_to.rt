//! When a civil second is due: at the first instant when the clock shows it or a later one. A span
//! is instants, from one on, where the clock keeps its offset.
ghost use Rattle.std.specs.Prelude.{◌≡◌, ◌⊎◌, ◌<◌, ◌+ℤ◌, ◌-ℤ◌, ◌≤ℤ◌, neg_ℤ, pos, false, IfSome};
ghost use Rattle.jiff_core.specs.Calendar.{IsBetween};
ghost use Rattle.cron_moments.specs.Civil.{seconds_in_range};
ghost use Rattle.cron_dues.specs.Clock.Due.{due};
ghost use Rattle.cron_dues.specs.Reached.{IsAhead, IsUnreachedBefore, ends_before};

use crate::clock::Clock;
use crate::fire::{DueFire, due_fire};
use crate::steady::{DueSpan, Steady};
use cron_moments::civil::FURTHEST_OFFSET;

// Returns true if the clock comes to the end of `steady` before it shows `second` or a later one.
#[inline(always)]
fn ends_before(steady: &Steady, second: u32) -> bool
    ensures { result ≡ ends_before steady.now second }
{
    steady.shown(steady.end) <= i64::from(second)
}

// The number of seconds from `second` to `shown`, or 0 if `shown` isn't later.
fn seconds_past(shown: i64, second: u32) -> u32
    requires { IsBetween (neg_ℤ (pos 2_000_000)) (pos 4_294_967_295) shown }
    ensures most { (shown -ℤ pos second) ≤ℤ pos result }
    ensures either { (pos result ≡ shown -ℤ pos second) ⊎ (pos result ≡ pos 0) }
{
    let nominal = i64::from(second);
    if shown <= nominal {
        return 0;
    }
    (shown - nominal) as u32
}

/// The due fire of `second`, which is due in `span`.
#[inline(always)]
fn fire_in<C: Clock>(_clock: &C, second: u32, span: &DueSpan) -> DueFire
    requires range { second < seconds_in_range }
    requires ahead { IsAhead (C.offsets _clock.now) second span.now.from span.now.steady }
    requires shown { ends_before span.now.steady second ≡ false }
    ensures { result ≡ due (C.offsets _clock.now) second }
{
    let past = seconds_past(span.steady.shown(span.from), second);
    due_fire(second, past, span.steady.offset)
}

// The span where `second` is due. The clock shows neither `second` nor a later one before `start`.
#[inline(never)]
fn span_from<C: Clock>(clock: &C, second: u32, start: i64) -> DueSpan
    requires range { second < seconds_in_range }
    requires unreached { IsUnreachedBefore (C.offsets clock.now) second start }
    requires low { (pos second -ℤ pos 93_599) ≤ℤ start }
    requires high { start ≤ℤ (pos second +ℤ pos 93_599) }
    ensures ahead { IsAhead (C.offsets clock.now) second result.from result.steady }
    ensures shown { ends_before result.steady second ≡ false }
{
    let mut from = start;
    let mut steady = clock.steady_from(from);
    while ends_before(&steady, second) {
        from = steady.end;
        steady = clock.steady_past(from);
    }
    DueSpan { from, steady }
}

/// The span where `second` is due.
pub(crate) fn span_of<C: Clock>(clock: &C, second: u32) -> DueSpan
    requires { second < seconds_in_range }
    ensures ahead { IsAhead (C.offsets clock.now) second result.from result.steady }
    ensures shown { ends_before result.steady second ≡ false }
{
    span_from(clock, second, i64::from(second) - FURTHEST_OFFSET)
}

// The span where `second` is due. `from` is the end of a period that the clock returned before, and
// a transition may be there.
#[inline(never)]
fn span_behind<C: Clock>(clock: &C, second: u32, from: i64) -> DueSpan
    requires range { second < seconds_in_range }
    requires unreached { IsUnreachedBefore (C.offsets clock.now) second from }
    requires low { (pos second -ℤ pos 93_599) ≤ℤ from }
    requires high { from ≤ℤ (pos second +ℤ pos 93_599) }
    ensures ahead { IsAhead (C.offsets clock.now) second result.from result.steady }
    ensures shown { ends_before result.steady second ≡ false }
{
    let steady = clock.steady_past(from);
    if ends_before(&steady, second) {
        return span_from(clock, second, steady.end);
    }
    DueSpan { from, steady }
}

// The span where `second` is due. The clock doesn't show `second` before the span `earlier` of an
// earlier civil second.
#[inline(always)]
fn span_past<C: Clock>(clock: &C, second: u32, earlier: DueSpan) -> DueSpan
    requires range { second < seconds_in_range }
    requires ahead { IsAhead (C.offsets clock.now) second earlier.from earlier.steady }
    ensures ahead { IsAhead (C.offsets clock.now) second result.from result.steady }
    ensures shown { ends_before result.steady second ≡ false }
{
    if !ends_before(&earlier.steady, second) {
        return earlier;
    }
    let from = earlier.steady.end;
    if from < i64::from(second) - FURTHEST_OFFSET {
        return span_of(clock, second);
    }
    span_behind(clock, second, from)
}

/// The due fire of `second`, and the span where it is due. `earlier` is the span of an earlier
/// civil second, if it is known, and may be the span of `second` too.
#[inline(always)]
pub fn due_past<C: Clock>(clock: &C, second: u32, earlier: Option<DueSpan>) -> (DueFire, DueSpan)
    requires range { second < seconds_in_range }
    requires ahead { IfSome earlier
        (λ span. IsAhead (C.offsets clock.now) second span.from span.steady) }
    ensures due { result.0 ≡ due (C.offsets clock.now) second }
    ensures ahead { IsAhead (C.offsets clock.now) second result.1.from result.1.steady }
{
    let span = match earlier {
        Some(span) => span_past(clock, second, span),
        None => span_of(clock, second),
    };
    (fire_in(clock, second, &span), span)
}

/// The due fire of `second`. In a fold it is due in the first pass. In a gap it is due at the
/// transition, since there the clock first shows a later second.
pub fn due_of<C: Clock>(clock: &C, second: u32) -> DueFire
    requires { second < seconds_in_range }
    ensures { result ≡ due (C.offsets clock.now) second }
{
    fire_in(clock, second, &span_of(clock, second))
}
