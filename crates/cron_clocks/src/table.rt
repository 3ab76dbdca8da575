//! The civil seconds between the transitions of a zone's table. A transition begins and ends where
//! its gap or fold does, at civil seconds counted from 1970-01-01 00:00:00.
ghost use Rattle.std.specs.Prelude.{◌≡◌, ◌≤◌, ◌<◌, pos, ◌≤ℤ◌, ◌<ℤ◌, false, int_le, length};
ghost use Rattle.jiff_tz.specs.Tzif.{ambiguous_at, civil_count_at, civil_start, is_inside, offsets_in, type_after};
ghost use Rattle.cron_moments.specs.Civil.{civil, seconds_in_range};
ghost use Rattle.cron_clocks.specs.Spans.{IsNarrowed};
ghost use Rattle.cron_clocks.specs.Steady.{IsToldBy};
ghost use Rattle.cron_clocks.specs.Tables.{IsAlikeAround, IsBetweenTransitions, IsShortOf, IsToldAlikeIn, IsTransitionAround, offsets_around, transitions_of};

use crate::rule::{Span, SpanOffsets, WHOLE, part, part_twice};
use crate::season::rule_offsets;
use jiff::tz::Offset;
use jiff_tz::Tzif;
use jiff_tz::tzif::Transition;

// How many transitions of the table begin at or before the civil second `second`.
fn transitions_by(table: &Tzif, second: i64) -> usize
    ensures value { result ≡ civil_count_at table.now second }
    ensures bound { result ≤ length (transitions_of table.now) }
{
    table.transitions().partition_point(
        |transition: &Transition| -> bool
            ensures { result ≡ int_le (civil_start transition.now) second }
        { transition.civil_start() <= second },
    )
}

// Cuts `span` where transition `count` begins, and returns the part that holds `at`. It is all of
// `span` if there is no such transition.
fn up_to_next(table: &Tzif, count: usize, at: i64, span: Span) -> Span
    requires low { span.first ≤ℤ at }
    requires high { at <ℤ span.end }
    ensures low { result.first ≤ℤ at }
    ensures high { at <ℤ result.end }
    ensures narrowed { IsNarrowed span.first span.end result.first result.end }
    ensures next { IsShortOf (transitions_of table.now) count result.first result.end }
{
    let transitions = table.transitions();
    if count >= transitions.len() {
        return span;
    }
    part(span, at, transitions[count].civil_start())
}

// Cuts `span` where transition `count - 1` begins and ends and where transition `count` begins, and
// returns the part that holds `at`.
fn between_transitions(table: &Tzif, count: usize, at: i64, span: Span) -> Span
    requires low { span.first ≤ℤ at }
    requires high { at <ℤ span.end }
    requires count { count ≤ length (transitions_of table.now) }
    ensures low { result.first ≤ℤ at }
    ensures high { at <ℤ result.end }
    ensures narrowed { IsNarrowed span.first span.end result.first result.end }
    ensures between { IsBetweenTransitions
        (transitions_of table.now)
        count
        result.first
        result.end }
{
    let ahead = up_to_next(table, count, at, span);
    if count == 0 {
        return ahead;
    }
    let last = table.transitions()[count - 1];
    part_twice(ahead, at, last.civil_start(), last.civil_end())
}

// Transition `count - 1`, if `at` lies in its gap or fold, else `None`. `count` transitions begin
// at or before `at`.
fn transition_around(table: &Tzif, count: usize, at: i64) -> Option<Transition>
    requires { count ≤ length (transitions_of table.now) }
    ensures { IsTransitionAround table.now count at result }
{
    if count == 0 {
        return None;
    }
    let last = table.transitions()[count - 1];
    if at < last.civil_end() {
        Some(last)
    } else {
        None
    }
}

// The offsets of a civil second in the gap or fold of `transition`: none in a gap, two in a fold,
// and one if the transition keeps the offset.
fn offsets_inside(transition: Transition) -> (Option<Offset>, Option<Offset>)
    ensures { IsToldBy (offsets_in transition) result.0 result.1 }
{
    let (before, after) = (transition.before, transition.after.offset);
    if before.seconds < after.seconds {
        return (None, None);
    }
    if before.seconds == after.seconds {
        return (Some(Offset::from_plain(before)), None);
    }
    (
        Some(Offset::from_plain(before)),
        Some(Offset::from_plain(after)),
    )
}

// The offset of the clock after the first `count` transitions.
fn offset_past(table: &Tzif, count: usize) -> Offset
    requires { count ≤ length (transitions_of table.now) }
    ensures { result ≡ (type_after table.now count).offset }
{
    if count == 0 {
        Offset::from_plain(table.first().offset)
    } else {
        Offset::from_plain(table.transitions()[count - 1].after.offset)
    }
}

// The offsets of the civil second `second`, which is after the first `count` transitions and their
// gaps and folds. After all transitions of the table its rule decides, if it has one.
fn behind_transitions(table: &Tzif, count: usize, second: u32) -> SpanOffsets
    requires range { second < seconds_in_range }
    requires count { count ≤ length (transitions_of table.now) }
    ensures alike { IsAlikeAround table.now count false second result.span.first result.span.end }
    ensures low { result.span.first ≤ℤ pos second }
    ensures high { pos second <ℤ result.span.end }
    ensures narrowed { IsNarrowed (pos 0) (pos seconds_in_range) result.span.first result.span.end }
    ensures told { IsToldBy
        (offsets_around table.now count false (civil second))
        result.earlier
        result.later }
{
    if count == table.transitions().len() {
        if let Some(rule) = table.posix_tz() {
            return rule_offsets(rule, second);
        }
    }
    SpanOffsets {
        span: WHOLE,
        earlier: Some(offset_past(table, count)),
        later: None,
    }
}

// The offsets of the civil second `second`, if `count` transitions begin at or before it.
fn table_offsets_past(table: &Tzif, count: usize, second: u32) -> SpanOffsets
    requires range { second < seconds_in_range }
    requires count { count ≤ length (transitions_of table.now) }
    ensures alike { IsAlikeAround table.now count
        (is_inside table.now count (pos second))
        second
        result.span.first
        result.span.end }
    ensures low { result.span.first ≤ℤ pos second }
    ensures high { pos second <ℤ result.span.end }
    ensures narrowed { IsNarrowed (pos 0) (pos seconds_in_range) result.span.first result.span.end }
    ensures told { IsToldBy
        (offsets_around table.now count (is_inside table.now count (pos second)) (civil second))
        result.earlier
        result.later }
{
    let Some(transition) = transition_around(table, count, i64::from(second)) else {
        return behind_transitions(table, count, second);
    };
    let (earlier, later) = offsets_inside(transition);
    SpanOffsets {
        span: WHOLE,
        earlier,
        later,
    }
}

/// The offsets of the civil second `second` by a table, and civil seconds around it that have the
/// same offsets.
pub(crate) fn table_offsets(table: &Tzif, second: u32) -> SpanOffsets
    requires { second < seconds_in_range }
    ensures alike { IsToldAlikeIn table.now second result.span.first result.span.end }
    ensures low { result.span.first ≤ℤ pos second }
    ensures high { pos second <ℤ result.span.end }
    ensures narrowed { IsNarrowed (pos 0) (pos seconds_in_range) result.span.first result.span.end }
    ensures told { IsToldBy (ambiguous_at table.now (civil second)) result.earlier result.later }
{
    let at = i64::from(second);
    let count = transitions_by(table, at);
    let told = table_offsets_past(table, count, second);
    SpanOffsets {
        span: between_transitions(table, count, at, told.span),
        earlier: told.earlier,
        later: told.later,
    }
}
