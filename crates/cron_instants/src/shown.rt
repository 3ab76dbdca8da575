//! The first item after an instant, found by what a clock shows at one offset after another. Around
//! a transition this costs less than a search by stretches, which would query several stretches
//! more than once.
//!
//! An item is a reading of a match, and a mark a place in the order of items. `kept` is an offset
//! that a clock keeps, and up to where.
ghost use Rattle.std.specs.Prelude.{◌≡◌, ℕ, ◌≤◌, ◌<◌, ℤ, neg_ℤ, pos, ◌+ℤ◌, ◌≤ℤ◌, ◌<ℤ◌, IfSome, IsTrue, Some, false};
ghost use Rattle.jiff.specs.Words.{plain_zone};
ghost use Rattle.jiff_core.specs.Calendar.{IsBetween};
ghost use Rattle.jiff_tz.specs.declared.timezone.TimeZone.TheVariants.{Tzif};
ghost use Rattle.cron_clocks.specs.Clocks.{IsKeptUpTo, LookupsAgree};
ghost use Rattle.cron_moments.specs.Civil.{seconds_in_range};
ghost use Rattle.cron_time.specs.Seconds.{Seconds, is_match};
ghost use Rattle.cron_units.specs.declared.way.Way.TheVariants.{Ahead};
ghost use Rattle.cron_units.specs.Nearest.{IsNearest};
ghost use Rattle.cron_instants.specs.Beyond.{IsBest, IsBeyond};
ghost use Rattle.cron_instants.specs.Inner.Periods.{IsLastOf};
ghost use Rattle.cron_instants.specs.Inner.Shown.{IsFirstShown, IsFrom, IsItemIn};

use crate::mark::Mark;
use crate::monotone::monotone_past;
use crate::offset_range::APART;
use crate::periods::{period_past, transitions_by};
use cron_clocks::clock::{Kept, keeping_by_rule, kept_by_rule};
use cron_moments::civil::{FURTHEST_OFFSET, SECONDS};
use cron_moments::moment::{Moment, moment_numbered};
use cron_seconds::civil_seconds::CivilSeconds;
use cron_units::way::Way;
use jiff::tz::TimeZone;

// Returns true if a clock that keeps `kept` from `at` on keeps it for at least `APART` seconds.
// After such a period no clock shows what was shown before `at`.
fn is_long(kept: &Kept, at: i64) -> bool
    requires { IsBetween (neg_ℤ (pos 400_000_000_000)) (pos 400_000_000_001) at }
    ensures { IsTrue result → (at +ℤ pos 187_200) ≤ℤ pos kept.now.end }
{
    at + APART <= i64::from(kept.end)
}

// The first match at or after `from`. `known` is the first match at or after `earlier`, and may be
// the answer.
fn match_from<S: CivilSeconds>(set: &S, from: i64, earlier: i64, known: Option<u32>) -> Option<u32>
    requires known { IsNearest Ahead (is_match (S.has set.now)) earlier known }
    requires bound { IfSome known (λ n. n < seconds_in_range) }
    ensures nearest { IsNearest Ahead (is_match (S.has set.now)) from result }
    ensures bound { IfSome result (λ n. n < seconds_in_range) }
{
    if earlier <= from && lies_from(known, from) {
        return known;
    }
    if from <= earlier && is_clear_between(set, from, earlier) {
        return known;
    }
    set.nearest(Way::Ahead, from)
}

// Returns true only if the set says, without a search, that no civil second at or after `from` and
// before `end` matches. In a fold this saves a search of the repeated hour.
fn is_clear_between<S: CivilSeconds>(set: &S, from: i64, end: i64) -> bool
    ensures { IsTrue result → (k : ℕ) → from ≤ℤ pos k → pos k <ℤ end
        → is_match (S.has set.now) k ≡ false }
{
    if from < 0 || end < from || end >= SECONDS {
        return false;
    }
    let (first, last) = (from as u32, end as u32);
    set.is_clear(first, last)
}

// Returns true if `known` is `None` or is at least `from`.
fn lies_from(known: Option<u32>, from: i64) -> bool
    ensures { IsTrue result → IfSome known (λ n. from ≤ℤ pos n) }
{
    match known {
        Some(second) => from <= i64::from(second),
        None => true,
    }
}

// The item of the match `next` at the offset of `kept`. `None` if `next` is `None`, or if its
// instant isn't before the end of `kept`.
fn item_in(kept: &Kept, next: Option<u32>) -> Option<Moment>
    requires { IfSome next (λ n. n < seconds_in_range) }
    ensures { IsItemIn kept.now next result }
{
    let second = next?;
    if i64::from(second) - i64::from(kept.offset.seconds()) >= i64::from(kept.end) {
        return None;
    }
    Some(moment_numbered(second, kept.offset))
}

// The reading of `second` before whose instant the zone's clock shows only earlier civil seconds.
// `None` if that reading isn't known.
fn item_at(zone: &TimeZone<'_>, second: u32) -> Option<Moment>
    requires { second < seconds_in_range }
    ensures { IfSome result
        (λ r. (r.second ≡ second) × IsFirstShown (plain_zone zone.now) r) }
{
    let there = kept_by_rule(zone, i64::from(second) - FURTHEST_OFFSET)?;
    item_in(&there, Some(second))
}

// The first item at or after an instant where a clock keeps `kept` for at least `APART` seconds
// more. `next` is the first match at or after what the clock shows at that instant. The outer
// `None` means that the item isn't known, the inner one that there is none.
fn first_in_long(zone: &TimeZone<'_>, kept: &Kept, next: Option<u32>) -> Option<Option<Moment>>
    requires { IfSome next (λ n. n < seconds_in_range) }
    ensures { IfSome result
        (λ first. (s : Seconds) (at : ℤ) → LookupsAgree (plain_zone zone.now)
        → IsKeptUpTo (plain_zone zone.now) at kept.now.end kept.now.offset.seconds
        → (at +ℤ pos 187_200) ≤ℤ pos kept.now.end
        → IsNearest Ahead (is_match s) (at +ℤ kept.now.offset.seconds) next
        → IsBest Ahead (IsFrom s (plain_zone zone.now) at) first) }
{
    if let Some(item) = item_in(kept, next) {
        return Some(Some(item));
    }
    let Some(second) = next else {
        return Some(None);
    };
    Some(Some(item_at(zone, second)?))
}

// The first item beyond `mark`, which follows all items of its instant. The outer `None` means that
// the zone's rule can't tell it.
#[inline(never)]
fn first_by_rule<S: CivilSeconds>(
    set: &S,
    zone: &TimeZone<'_>,
    mark: Mark,
) -> Option<Option<Moment>>
    requires { seconds_in_range ≤ mark.second }
    ensures { IfSome result
        (IsBest Ahead
        (IsBeyond Ahead (S.has set.now) (plain_zone zone.now) mark.instant mark.second)) }
{
    let at = mark.instant + 1;
    let keeping = keeping_by_rule(zone, at)?;
    let kept = keeping.kept;
    let from = at + i64::from(kept.offset.seconds());
    let next = set.nearest(Way::Ahead, from);
    if is_long(&kept, at) {
        return first_in_long(zone, &kept, next);
    }
    if let Some(item) = item_in(&kept, next) {
        return Some(Some(item));
    }
    let end = i64::from(kept.end);
    let behind = kept_behind(zone, end, keeping.next)?;
    first_behind(set, zone, end, &behind, from, next)
}

// The offset that a clock keeps from `at` on, and up to where: `known` if it is `Some`, otherwise
// by the zone's rule. `None` if the zone's rule can't tell it.
fn kept_behind(zone: &TimeZone<'_>, at: i64, known: Option<Kept>) -> Option<Kept>
    requires { IfSome known (λ k. IsKeptUpTo (plain_zone zone.now) at k.end k.offset.seconds) }
    ensures { IfSome result (λ k. IsKeptUpTo (plain_zone zone.now) at k.end k.offset.seconds) }
{
    match known {
        Some(kept) => Some(kept),
        None => kept_by_rule(zone, at),
    }
}

// The first item at or after `at`, where a clock keeps `kept` from `at` on. `known` is the first
// match at or after `earlier`. The outer `None` means that the item isn't known, as when `kept`
// lasts less than `APART` seconds.
fn first_behind<S: CivilSeconds>(
    set: &S,
    zone: &TimeZone<'_>,
    at: i64,
    kept: &Kept,
    earlier: i64,
    known: Option<u32>,
) -> Option<Option<Moment>>
    requires agree { LookupsAgree (plain_zone zone.now) }
    requires kept { IsKeptUpTo (plain_zone zone.now) at kept.now.end kept.now.offset.seconds }
    requires at { IsBetween (neg_ℤ (pos 400_000_000_000)) (pos 400_000_000_001) at }
    requires known { IsNearest Ahead (is_match (S.has set.now)) earlier known }
    requires bound { IfSome known (λ n. n < seconds_in_range) }
    ensures { IfSome result (IsBest Ahead (IsFrom (S.has set.now) (plain_zone zone.now) at)) }
{
    if !is_long(kept, at) {
        return None;
    }
    let from = at + i64::from(kept.offset.seconds());
    first_in_long(zone, kept, match_from(set, from, earlier, known))
}

// The first item at or after `at`, the instant of transition `count` of the zone's table, counted
// from 1. `None` if the item isn't known. `known` is the first match at or after `earlier`.
fn first_past_transition<S: CivilSeconds>(
    set: &S,
    zone: &TimeZone<'_>,
    table: &jiff_tz::Tzif,
    count: usize,
    at: i64,
    earlier: i64,
    known: Option<u32>,
) -> Option<Moment>
    requires zone { plain_zone zone.now ≡ Tzif table }
    requires last { IsLastOf table.now count at }
    requires at { IsBetween (neg_ℤ (pos 400_000_000_000)) (pos 400_000_000_001) at }
    requires known { IsNearest Ahead (is_match (S.has set.now)) earlier known }
    requires bound { IfSome known (λ n. n < seconds_in_range) }
    ensures { IfSome result
        (λ item. IsBest Ahead (IsFrom (S.has set.now) (plain_zone zone.now) at) (Some item)) }
{
    let kept = period_past(table, count)?;
    let from = at + i64::from(kept.offset.seconds());
    let next = match_from(set, from, earlier, known);
    if let Some(item) = item_in(&kept, next) {
        return Some(item);
    }
    let second = next?;
    let there = monotone_past(zone, second)?;
    if i64::from(second) - i64::from(there.offset.seconds()) < at {
        return None;
    }
    Some(moment_numbered(second, there.offset))
}

// The first item beyond `mark`, which follows all items of its instant. `None` if the zone's table
// can't tell it.
#[inline(never)]
fn first_by_table<S: CivilSeconds>(
    set: &S,
    zone: &TimeZone<'_>,
    table: &jiff_tz::Tzif,
    mark: Mark,
) -> Option<Moment>
    requires zone { plain_zone zone.now ≡ Tzif table }
    requires behind { seconds_in_range ≤ mark.second }
    ensures { IfSome result
        (λ item. IsBest Ahead
        (IsBeyond Ahead (S.has set.now) (plain_zone zone.now) mark.instant mark.second)
        (Some item)) }
{
    let at = mark.instant + 1;
    let count = transitions_by(table, at);
    let kept = period_past(table, count)?;
    let from = at + i64::from(kept.offset.seconds());
    let next = set.nearest(Way::Ahead, from);
    if let Some(item) = item_in(&kept, next) {
        return Some(item);
    }
    first_past_transition(set, zone, table, count + 1, i64::from(kept.end), from, next)
}

/// The first item beyond `mark`, which follows all items of its instant, in any zone. The outer
/// `None` means that the item isn't known. It is known only in zones with a rule or a table, and
/// not in all of them.
#[inline(always)]
pub(crate) fn first_shown<S: CivilSeconds>(
    set: &S,
    zone: &TimeZone<'_>,
    mark: Mark,
) -> Option<Option<Moment>>
    requires { seconds_in_range ≤ mark.second }
    ensures { IfSome result
        (IsBest Ahead
        (IsBeyond Ahead (S.has set.now) (plain_zone zone.now) mark.instant mark.second)) }
{
    match zone.to_plain() {
        jiff_tz::TimeZone::Posix(rule) => {
            if rule.dst.is_none() {
                return None;
            }
            first_by_rule(set, zone, mark)
        }
        jiff_tz::TimeZone::Tzif(table) => Some(Some(first_by_table(set, zone, table, mark)?)),
        _ => None,
    }
}
