//! What a clock in a zone shows at an instant.
//!
//! Seconds of UTC are counted from 1970-01-01T00:00:00Z, and civil seconds from 1970-01-01
//! 00:00:00. A stretch is civil seconds in a row that the zone reads at the same offsets. A season
//! is a time of the year, far from its transitions, when a rule shows one offset.
ghost use Rattle.std.specs.Prelude.{◌≡◌, ◌<◌, pos, ◌+ℤ◌, ◌≤ℤ◌, ◌<ℤ◌, IfSome, IsTrue, Some};
ghost use Rattle.std.specs.Int.{int_div_euclid};
ghost use Rattle.jiff.specs.Words.{plain_zone};
ghost use Rattle.jiff_core.specs.Calendar.{IsWithin};
ghost use Rattle.jiff_tz.specs.Zone.{offset_at};
ghost use Rattle.jiff_tz.specs.declared.timezone.TimeZone.TheVariants.{Posix};
ghost use Rattle.cron_moments.specs.Civil.{seconds_in_range};
ghost use Rattle.cron_clocks.specs.Clocks.{IsKeptUpTo, IsShown, LookupsAgree};
ghost use Rattle.cron_clocks.specs.Spans.{AreTransitions, IsFarInside};
ghost use Rattle.cron_clocks.specs.Steady.{IsKnown};
ghost use Rattle.cron_clocks.specs.Transitions.{TransitionsAreApart};

use crate::offsets::Placed;
use crate::rule::{
    Span, Transitions, WHOLE, between_transitions, part_twice, saving_of, transitions_around,
};
use crate::season::{season_at, season_if_apart};
use crate::stretch::{Stretch, rule_stretch, season_stretch};
use cron_moments::civil::{FURTHEST_OFFSET, SECONDS};
use jiff::Timestamp;
use jiff::tz::{Offset, TimeZone};
use jiff_tz::posix;

/// An offset that a clock keeps up to `end`, a second of UTC that is left out.
#[derive(Clone, Copy)]
pub struct Kept {
    /// How far the clock is ahead of UTC.
    pub offset: Offset,
    /// In seconds since 1970-01-01T00:00:00Z.
    pub end: u32,
}

/// An offset that a clock keeps, and the offset that follows it, if that is known.
#[derive(Clone, Copy)]
pub struct Keeping {
    /// The offset, and up to where it is kept.
    pub kept: Kept,
    /// The next offset, and up to where that is kept.
    pub next: Option<Kept>,
}

// Each clock differs from UTC by less than this, in seconds.
const FAR: i64 = FURTHEST_OFFSET + 1;

// Whether `transition` lies so far from the edges of its year that it is in the same year in UTC.
fn is_far_inside(year: Span, transition: i64) -> bool
    requires first { IsWithin 400_000_000_000 year.first }
    requires end { IsWithin 400_000_000_000 year.end }
    ensures { IsTrue result → IsFarInside year.first year.end transition }
{
    year.first + FAR <= transition && transition <= year.end - FAR
}

// Whether both transitions are so far from the edges of their year that they are in it in UTC.
fn are_far_inside(transitions: Transitions) -> bool
    ensures start { IsTrue result
        → IsFarInside transitions.year.first transitions.year.end transitions.start }
    ensures end { IsTrue result
        → IsFarInside transitions.year.first transitions.year.end transitions.end }
{
    is_far_inside(transitions.year, transitions.start)
        && is_far_inside(transitions.year, transitions.end)
}

// The offset that a clock shows in `second` of UTC, from the transitions of its year. `None` if one
// of them lies at an edge of the year.
#[inline(always)]
fn offset_among(
    rule: posix::TimeZone,
    dst: posix::Dst,
    transitions: Transitions,
    second: u32,
) -> Option<Offset>
    requires saving { rule.dst ≡ Some dst }
    requires transitions { AreTransitions dst
        transitions.year.first
        transitions.year.end
        transitions.start
        transitions.end }
    requires low { transitions.year.first ≤ℤ pos second }
    requires high { pos second <ℤ transitions.year.end }
    ensures shown { IfSome result (λ o. IsShown (Posix rule) (pos second) o.seconds) }
    ensures far { IfSome result (λ o.
        IsFarInside transitions.year.first transitions.year.end transitions.start
        × IsFarInside transitions.year.first transitions.year.end transitions.end) }
{
    if !are_far_inside(transitions) {
        return None;
    }
    let placed = Placed {
        at: i64::from(second),
        start: transitions.start - i64::from(rule.std_offset.seconds),
        end: transitions.end - i64::from(dst.offset.seconds),
        saving: saving_of(rule, dst),
    };
    let shown = if placed.lasts() {
        dst.offset
    } else {
        rule.std_offset
    };
    Some(Offset::from_plain(shown))
}

// The offset that a clock shows in `second` of UTC, and up to where it keeps it in that year, from
// the transitions of the year. `None` if one of them lies at an edge of the year.
#[inline(always)]
fn kept_among(
    rule: posix::TimeZone,
    dst: posix::Dst,
    transitions: Transitions,
    second: u32,
) -> Option<Kept>
    requires range { second < seconds_in_range }
    requires saving { rule.dst ≡ Some dst }
    requires transitions { AreTransitions dst
        transitions.year.first
        transitions.year.end
        transitions.start
        transitions.end }
    requires low { transitions.year.first ≤ℤ pos second }
    requires high { pos second <ℤ transitions.year.end }
    ensures { IfSome result
        (λ kept. IsKeptUpTo (Posix rule) (pos second) kept.end kept.offset.seconds) }
{
    let offset = offset_among(rule, dst, transitions, second)?;
    let at = i64::from(second);
    let start = transitions.start - i64::from(rule.std_offset.seconds);
    let end = transitions.end - i64::from(dst.offset.seconds);
    let in_year = part_twice(WHOLE, at, transitions.year.first, transitions.year.end);
    Some(Kept {
        offset,
        end: part_twice(in_year, at, start, end).end as u32,
    })
}

// The same as `kept_among`, for any second: `None` also if it is outside of 1970 to 2100 or of the
// year of the transitions.
#[inline(always)]
fn kept_if_among(
    rule: posix::TimeZone,
    dst: posix::Dst,
    transitions: Transitions,
    second: u32,
) -> Option<Kept>
    requires saving { rule.dst ≡ Some dst }
    requires transitions { AreTransitions dst
        transitions.year.first
        transitions.year.end
        transitions.start
        transitions.end }
    ensures { IfSome result
        (λ kept. IsKeptUpTo (Posix rule) (pos second) kept.end kept.offset.seconds) }
{
    let at = i64::from(second);
    if at >= SECONDS || !transitions.year.has(at) {
        return None;
    }
    kept_among(rule, dst, transitions, second)
}

// Sets `stretch` to the stretch around the civil second `second`, if that is in 1970 to 2100 and in
// the year of the transitions.
fn learn(
    rule: posix::TimeZone,
    dst: posix::Dst,
    transitions: Transitions,
    second: i64,
    stretch: &mut Stretch,
)
    requires saving { rule.dst ≡ Some dst }
    requires transitions { AreTransitions dst
        transitions.year.first
        transitions.year.end
        transitions.start
        transitions.end }
    requires known { IsKnown (Posix rule) stretch.old }
    ensures { IsKnown (Posix rule) stretch.new }
{
    if second < 0 || second >= SECONDS {
        return;
    }
    if transitions.year.has(second) {
        let civil = second as u32;
        *stretch = rule_stretch(
            rule,
            civil,
            between_transitions(rule, dst, transitions, civil),
        );
    }
}

// The offset that a clock shows in `second` of UTC by a rule. `None` if a transition lies at an
// edge of the second's year. If the clock shows the same year, sets `stretch` to the stretch around
// the civil second that it shows.
#[inline(never)]
fn offset_by_transitions(
    rule: posix::TimeZone,
    dst: posix::Dst,
    second: u32,
    stretch: &mut Stretch,
) -> Option<Offset>
    requires range { second < seconds_in_range }
    requires saving { rule.dst ≡ Some dst }
    requires known { IsKnown (Posix rule) stretch.old }
    ensures shown { IfSome result (λ o. IsShown (Posix rule) (pos second) o.seconds) }
    ensures known { IsKnown (Posix rule) stretch.new }
{
    let transitions = transitions_around(dst, second);
    let offset = offset_among(rule, dst, transitions, second)?;
    let shown = i64::from(second) + i64::from(offset.seconds());
    learn(rule, dst, transitions, shown, stretch);
    Some(offset)
}

// The offset that a clock shows in `second` of UTC by a rule: from the season of the second, or
// else from the transitions of its year. Sets `stretch` to the season, if there is one. `None` if
// neither gives the offset.
fn offset_by(rule: posix::TimeZone, second: u32, stretch: &mut Stretch) -> Option<Offset>
    requires range { second < seconds_in_range }
    requires known { IsKnown (Posix rule) stretch.old }
    ensures shown { IfSome result (λ o. IsShown (Posix rule) (pos second) o.seconds) }
    ensures known { IsKnown (Posix rule) stretch.new }
{
    let Some(dst) = rule.dst else {
        return Some(Offset::from_plain(rule.std_offset));
    };
    match season_at(rule, dst, second) {
        Some(season) => {
            let offset = season.offset;
            *stretch = season_stretch(season);
            Some(offset)
        }
        None => offset_by_transitions(rule, dst, second, stretch),
    }
}

// The offset that a clock shows at `instant` in a zone with a rule. If the rule's seasons and
// transitions don't give it, the zone is searched for it. May set `stretch` as `shown_at` does.
#[inline(never)]
fn offset_by_rule(
    zone: &TimeZone<'_>,
    rule: posix::TimeZone,
    instant: Timestamp,
    second: i64,
    stretch: &mut Stretch,
) -> Offset
    requires rule { plain_zone zone.now ≡ Posix rule }
    requires second { second ≡ int_div_euclid instant.nanosecond (pos 1_000_000_000) }
    requires known { IsKnown (Posix rule) stretch.old }
    ensures offset { result.seconds ≡ offset_at (Posix rule) instant.nanosecond }
    ensures known { IsKnown (Posix rule) stretch.new }
{
    if second < 0 || second >= SECONDS {
        return zone.to_offset(instant);
    }
    match offset_by(rule, second as u32, stretch) {
        Some(offset) => offset,
        None => zone.to_offset(instant),
    }
}

// The offset that a clock shows at `instant`, which lies in `second` of UTC. May set `stretch` as
// `shown_at` does.
#[inline(always)]
fn offset_at(zone: &TimeZone<'_>, instant: Timestamp, second: i64, stretch: &mut Stretch) -> Offset
    requires second { second ≡ int_div_euclid instant.nanosecond (pos 1_000_000_000) }
    requires known { IsKnown (plain_zone zone.now) stretch.old }
    ensures offset { result.seconds ≡ offset_at (plain_zone zone.now) instant.nanosecond }
    ensures known { IsKnown (plain_zone zone.now) stretch.new }
{
    match zone.to_plain() {
        jiff_tz::TimeZone::Posix(rule) => offset_by_rule(zone, rule, instant, second, stretch),
        _ => zone.to_offset(instant),
    }
}

// The offset that a clock in a zone with a rule shows at `second` of UTC, up to where it keeps it,
// and the next offset in that year. Both are from the transitions of the year. `None` outside of
// 1970 to 2100, without such a rule, and if a transition lies at an edge of the year.
#[inline(never)]
fn keeping_by_transitions(zone: &TimeZone<'_>, second: i64) -> Option<Keeping>
    ensures kept { IfSome result
        (λ k. IsKeptUpTo (plain_zone zone.now) second k.kept.end k.kept.offset.seconds) }
    ensures next { IfSome result (λ k. IfSome k.next
        (λ n. IsKeptUpTo (plain_zone zone.now) (pos k.kept.end) n.end n.offset.seconds)) }
{
    let jiff_tz::TimeZone::Posix(rule) = zone.to_plain() else {
        return None;
    };
    let dst = rule.dst?;
    if second < 0 || second >= SECONDS {
        return None;
    }
    let civil = second as u32;
    let transitions = transitions_around(dst, civil);
    let kept = kept_among(rule, dst, transitions, civil)?;
    Some(Keeping {
        kept,
        next: kept_if_among(rule, dst, transitions, kept.end),
    })
}

/// The offset that a clock in a zone with a rule shows at `second` of UTC, and up to where it is
/// known to keep it. The place of the second in its year is enough, or else the year's transitions
/// are worked out, which give the next offset too. The end is some days before a transition, a
/// transition, or the end of the year. `None` outside of 1970 to 2100, in zones without a rule, and
/// for rules with one offset. `None` also where a transition lies near another one or an edge of
/// its year.
#[inline(always)]
pub fn keeping_by_rule(zone: &TimeZone<'_>, second: i64) -> Option<Keeping>
    ensures agree { IfSome result (λ k. LookupsAgree (plain_zone zone.now)) }
    ensures kept { IfSome result
        (λ k. IsKeptUpTo (plain_zone zone.now) second k.kept.end k.kept.offset.seconds) }
    ensures next { IfSome result (λ k. IfSome k.next
        (λ n. IsKeptUpTo (plain_zone zone.now) (pos k.kept.end) n.end n.offset.seconds)) }
{
    let jiff_tz::TimeZone::Posix(rule) = zone.to_plain() else {
        return None;
    };
    let dst = rule.dst?;
    if second < 0 || second >= SECONDS {
        return None;
    }
    let Some(season) = season_if_apart(rule, dst, second as u32)? else {
        return keeping_by_transitions(zone, second);
    };
    Some(Keeping {
        kept: Kept {
            offset: season.offset,
            end: season.end,
        },
        next: None,
    })
}

/// The offset that a clock in a zone with a rule shows at `second` of UTC, and up to where it is
/// known to keep it: what `keeping_by_rule` returns, without the next offset.
#[inline(always)]
pub fn kept_by_rule(zone: &TimeZone<'_>, second: i64) -> Option<Kept>
    ensures agree { IfSome result (λ kept. LookupsAgree (plain_zone zone.now)) }
    ensures kept { IfSome result
        (λ kept. IsKeptUpTo (plain_zone zone.now) second kept.end kept.offset.seconds) }
{
    Some(keeping_by_rule(zone, second)?.kept)
}

/// The same as `kept_by_rule`, from the transitions of the year only, also where they lie near each
/// other. `None` also if one lies at an edge of the year. Near a transition this is the shorter
/// way.
pub fn kept_by_transitions(zone: &TimeZone<'_>, second: i64) -> Option<Kept>
    ensures { IfSome result
        (λ kept. IsKeptUpTo (plain_zone zone.now) second kept.end kept.offset.seconds) }
{
    Some(keeping_by_transitions(zone, second)?.kept)
}

/// The number of the civil second that a clock in the zone shows at `instant`. In a zone with a
/// rule this may set `stretch`: to the season of the instant's second, or, if the transitions are
/// worked out, to the stretch around the returned civil second.
#[inline(always)]
pub fn shown_at(zone: &TimeZone<'_>, instant: Timestamp, stretch: &mut Stretch) -> i64
    requires { IsKnown (plain_zone zone.now) stretch.old }
    ensures shown { result
        ≡ int_div_euclid instant.nanosecond (pos 1_000_000_000)
        +ℤ offset_at (plain_zone zone.now) instant.nanosecond }
    ensures known { IsKnown (plain_zone zone.now) stretch.new }
{
    let second = instant.to_plain().floor_second();
    second + i64::from(offset_at(zone, instant, second, stretch).seconds())
}
