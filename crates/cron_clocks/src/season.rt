//! Seasons: the times of the year when a rule shows one offset, in every year.
//!
//! A year's transitions take some work to find. But where they lie apart, most seconds are far from
//! each second where a transition can lie in any year. For those the place in the year is enough to
//! know the offset.
ghost use Rattle.std.specs.Prelude.{◌≡◌, ◌<◌, ◌≤◌, pos, ◌+ℤ◌, ◌-ℤ◌, ◌≤ℤ◌, ◌<ℤ◌, IfSome, Some, None};
ghost use Rattle.jiff_tz.specs.PosixRule as Rule;
ghost use Rattle.jiff_tz.specs.declared.posix.TimeZone.{TimeZone};
ghost use Rattle.jiff_tz.specs.declared.timezone.TimeZone.TheVariants.{Posix};
ghost use Rattle.cron_moments.specs.Civil.{civil, seconds_in_range};
ghost use Rattle.cron_clocks.specs.Seasons.{AreInOrder, AreOrdered, IsSeasonBounds, IsSeason, IsYearOf};
ghost use Rattle.cron_clocks.specs.Spans.{IsNarrowed, IsToldAlike};
ghost use Rattle.cron_clocks.specs.Steady.{IsToldBy};
ghost use Rattle.cron_clocks.specs.Transitions.{TransitionsAreApart};

use crate::rule::{Span, SpanOffsets, WHOLE, between_transitions, transitions_around};
use crate::transitions::{SecondsOfYear, is_week_before, is_week_inside, seconds_of};
use crate::years::year_start_of;
use cron_moments::civil::{FURTHEST_OFFSET, SECONDS, SECONDS_PER_DAY};
use jiff::tz::Offset;
use jiff_tz::posix::{Dst, TimeZone};

// The seconds of a year of 365 days.
const YEAR: u32 = 365 * SECONDS_PER_DAY;

// Two clocks differ by less than this, in seconds.
const APART: i64 = 2 * (FURTHEST_OFFSET + 1);

/// Seconds from `first` up to `end`, which is left out, and the one offset that a rule shows in
/// them. They count from 1970-01-01 00:00:00, both as seconds of UTC and as civil seconds.
#[derive(Clone, Copy)]
pub(crate) struct Season {
    pub first: u32,
    pub end: u32,
    pub offset: Offset,
}

impl Season {
    // The offset at which the rule reads each civil second of the season, with the season as the
    // span.
    fn offsets(self) -> SpanOffsets
        ensures first { result.span.first ≡ pos self.first }
        ensures end { result.span.end ≡ pos self.end }
        ensures earlier { result.earlier ≡ Some self.offset }
        ensures later { result.later ≡ None }
    {
        SpanOffsets {
            span: Span {
                first: i64::from(self.first),
                end: i64::from(self.end),
            },
            earlier: Some(self.offset),
            later: None,
        }
    }
}

// The bounds of a rule's seasons in every year, in seconds from the year's beginning. The clock
// shows `outer` up to `outer_end`, `inner` from `inner_first` up to `inner_end`, and `outer` again
// from `outer_first` on. For the seconds between these seasons the transitions of the year must be
// worked out.
#[derive(Clone, Copy)]
struct SeasonBounds {
    outer_end: u32,
    inner_first: u32,
    inner_end: u32,
    outer_first: u32,
    outer: Offset,
    inner: Offset,
    ghost order: { AreOrdered outer_end inner_first inner_end outer_first },
}

// The bounds of the seasons, if the year's first transition lies in `earlier` and its second in
// `later`.
fn season_bounds_among(
    earlier: SecondsOfYear,
    later: SecondsOfYear,
    outer: Offset,
    inner: Offset,
) -> SeasonBounds
    requires { AreInOrder earlier.first earlier.last later.first later.last }
    ensures outer_end { pos result.outer_end ≡ earlier.first -ℤ pos 187_200 }
    ensures inner_first { pos result.inner_first ≡ earlier.last +ℤ pos 187_200 }
    ensures inner_end { pos result.inner_end ≡ later.first -ℤ pos 187_200 }
    ensures outer_first { pos result.outer_first ≡ later.last +ℤ pos 187_200 }
    ensures outer { result.outer ≡ outer }
    ensures inner { result.inner ≡ inner }
{
    SeasonBounds {
        outer_end: (earlier.first - APART) as u32,
        inner_first: (earlier.last + APART) as u32,
        inner_end: (later.first - APART) as u32,
        outer_first: (later.last + APART) as u32,
        outer,
        inner,
    }
}

// The bounds of the seasons by a rule. `None` if its transitions may lie less than a week from each
// other or from an edge of the year.
#[inline(always)]
fn season_bounds_of(rule: TimeZone, dst: Dst) -> Option<SeasonBounds>
    requires { rule.dst ≡ Some dst }
    ensures apart { IfSome result (λ c. TransitionsAreApart dst) }
    ensures bounds { IfSome result
        (λ c. IsSeasonBounds rule
        c.outer_end
        c.inner_first
        c.inner_end
        c.outer_first
        c.outer
        c.inner) }
{
    let start = seconds_of(dst.rule.start);
    let end = seconds_of(dst.rule.end);
    if !is_week_inside(start) || !is_week_inside(end) {
        return None;
    }
    let standard = Offset::from_plain(rule.std_offset);
    let saving = Offset::from_plain(dst.offset);
    if is_week_before(start, end) {
        Some(season_bounds_among(start, end, standard, saving))
    } else if is_week_before(end, start) {
        Some(season_bounds_among(end, start, saving, standard))
    } else {
        None
    }
}

// The season of `second`, or `None` if it is between two seasons. `year_start` is the second that
// begins its year. A season at an edge of the year goes on in the year beside it, which has at
// least 365 days.
fn season_among(season_bounds: SeasonBounds, year_start: u32, second: u32) -> Option<Season>
    requires { IsYearOf year_start second }
    ensures { (rule : TimeZone)
        → IsSeasonBounds rule
        season_bounds.outer_end
        season_bounds.inner_first
        season_bounds.inner_end
        season_bounds.outer_first
        season_bounds.outer
        season_bounds.inner
        → IfSome result (λ s. IsSeason rule second s.first s.end s.offset) }
{
    let (outer_end, inner_first) = (
        year_start + season_bounds.outer_end,
        year_start + season_bounds.inner_first,
    );
    let (inner_end, outer_first) = (
        year_start + season_bounds.inner_end,
        year_start + season_bounds.outer_first,
    );
    let (first, end, offset) = if second < outer_end {
        (
            outer_first.saturating_sub(YEAR),
            outer_end,
            season_bounds.outer,
        )
    } else if inner_first <= second && second < inner_end {
        (inner_first, inner_end, season_bounds.inner)
    } else if outer_first <= second {
        (
            outer_first,
            (outer_end + YEAR).min(SECONDS as u32),
            season_bounds.outer,
        )
    } else {
        return None;
    };
    Some(Season { first, end, offset })
}

/// The season of `second`, a second of UTC or a civil second. The inner `Option` is `None` if the
/// second is between two seasons. The outer one is `None` if the transitions of the rule may lie
/// near each other or near an edge of the year.
#[inline(always)]
pub(crate) fn season_if_apart(rule: TimeZone, dst: Dst, second: u32) -> Option<Option<Season>>
    requires range { second < seconds_in_range }
    requires saving { rule.dst ≡ Some dst }
    ensures apart { IfSome result (λ found. TransitionsAreApart dst) }
    ensures season { IfSome result
        (λ found. IfSome found (λ s. IsSeason rule second s.first s.end s.offset)) }
{
    let season_bounds = season_bounds_of(rule, dst)?;
    Some(season_among(season_bounds, year_start_of(second), second))
}

/// The season of `second`, or `None` if `season_if_apart` finds none.
#[inline(always)]
pub(crate) fn season_at(rule: TimeZone, dst: Dst, second: u32) -> Option<Season>
    requires range { second < seconds_in_range }
    requires saving { rule.dst ≡ Some dst }
    ensures { IfSome result (λ s. IsSeason rule second s.first s.end s.offset) }
{
    season_if_apart(rule, dst, second)?
}

// The offsets of the civil second `second` by a rule, from the transitions of its year.
#[inline(never)]
fn offsets_in_year(rule: TimeZone, dst: Dst, second: u32) -> SpanOffsets
    requires range { second < seconds_in_range }
    requires saving { rule.dst ≡ Some dst }
    ensures alike { IsToldAlike rule second result.span.first result.span.end }
    ensures low { result.span.first ≤ℤ pos second }
    ensures high { pos second <ℤ result.span.end }
    ensures narrowed { IsNarrowed (pos 0) (pos seconds_in_range) result.span.first result.span.end }
    ensures told { IsToldBy (Rule.ambiguous_at rule (civil second)) result.earlier result.later }
{
    between_transitions(rule, dst, transitions_around(dst, second), second)
}

/// The offsets of the civil second `second` by a rule, and civil seconds around it that have the
/// same offsets.
#[inline(always)]
pub(crate) fn offsets_by_rule(rule: TimeZone, second: u32) -> SpanOffsets
    requires { second < seconds_in_range }
    ensures alike { IsToldAlike rule second result.span.first result.span.end }
    ensures low { result.span.first ≤ℤ pos second }
    ensures high { pos second <ℤ result.span.end }
    ensures narrowed { IsNarrowed (pos 0) (pos seconds_in_range) result.span.first result.span.end }
    ensures told { IsToldBy (Rule.ambiguous_at rule (civil second)) result.earlier result.later }
{
    let Some(dst) = rule.dst else {
        return SpanOffsets {
            span: WHOLE,
            earlier: Some(Offset::from_plain(rule.std_offset)),
            later: None,
        };
    };
    match season_at(rule, dst, second) {
        Some(season) => season.offsets(),
        None => offsets_in_year(rule, dst, second),
    }
}

/// The same as `offsets_by_rule`, not inlined, for calls that are seldom.
#[inline(never)]
pub(crate) fn rule_offsets(rule: TimeZone, second: u32) -> SpanOffsets
    requires { second < seconds_in_range }
    ensures alike { IsToldAlike rule second result.span.first result.span.end }
    ensures low { result.span.first ≤ℤ pos second }
    ensures high { pos second <ℤ result.span.end }
    ensures narrowed { IsNarrowed (pos 0) (pos seconds_in_range) result.span.first result.span.end }
    ensures told { IsToldBy (Rule.ambiguous_at rule (civil second)) result.earlier result.later }
{
    offsets_by_rule(rule, second)
}
