//! The next fire after a fire whose civil second matches. The search of civil seconds goes on from
//! that match, which is quick. By the rule of the shown clock it finds the next fire only while the
//! clock keeps its offset.
ghost use Rattle.std.specs.Prelude.{◌≡◌, ◌<◌, pos, neg_ℤ, IfSome, Some};
ghost use Rattle.jiff.specs.Words.{plain_zone};
ghost use Rattle.jiff_core.specs.Calendar.{IsBetween};
ghost use Rattle.cron_clocks.specs.Clocks.{IsKeptUpTo, LookupsAgree};
ghost use Rattle.cron_fires.specs.Matches.{Matches};
ghost use Rattle.cron_instants.specs.Instants.{IsFirstPast};
ghost use Rattle.cron_dues.specs.FirstDues.{IsFirstDuePast};
ghost use Rattle.cron_agenda.specs.Fires.{civil_second};
ghost use Rattle.cron_agenda.specs.Inner.Slots.{IsNextFire};

use crate::fire::{EntryFire, first_past};
use cron::schedule::Moment;
use cron_clocks::clock::{Kept, kept_by_rule};
use cron_dues::fire::nominal_second;
use cron_dues::way_to::due_of;
use cron_fires::{CivilSeconds, DueFire, next_match};
use cron_moments::moment::{civil_second, instant_of, moment_numbered};
use jiff::tz::{Offset, TimeZone};

// `offset`, kept beyond the last instant of any fire.
fn kept_always(offset: Offset) -> Kept
    ensures offset { result.offset ≡ offset }
    ensures end { result.end ≡ 4_294_967_295 }
{
    Kept {
        offset,
        end: u32::MAX,
    }
}

// The offset that the clock of `zone` keeps from the instant `at` on, and the end of that time. It
// is known in zones with one offset and, up to its next transition, in zones with a rule. `None` if
// it isn't known.
fn kept_from(zone: &TimeZone<'_>, at: i64) -> Option<Kept>
    requires { IsBetween (neg_ℤ (pos 93_599)) (pos 4_294_967_294) at }
    ensures agree { IfSome result (λ kept. LookupsAgree (plain_zone zone.now)) }
    ensures kept { IfSome result
        (λ kept. IsKeptUpTo (plain_zone zone.now) at kept.end kept.offset.seconds) }
{
    match zone.to_plain() {
        jiff_tz::TimeZone::UTC | jiff_tz::TimeZone::Unknown => Some(kept_always(Offset::UTC)),
        jiff_tz::TimeZone::Fixed(offset) => Some(kept_always(Offset::from_plain(offset))),
        jiff_tz::TimeZone::Posix(_) => kept_by_rule(zone, at),
        jiff_tz::TimeZone::Tzif(_) => None,
    }
}

// The next fire by the shown clock, if it comes while the clock keeps the offset of `fire`. `None`
// if it doesn't, or if that isn't known.
fn next_while_kept<T: CivilSeconds>(table: &T, fire: &Moment, zone: &TimeZone<'_>) -> Option<Moment>
    requires { Matches (T.has table.now) fire.now.second }
    ensures { IfSome result
        (λ next. IsFirstPast (T.has table.now) (plain_zone zone.now) fire.now (Some next)) }
{
    let kept = kept_from(zone, instant_of(fire))?;
    if kept.offset.seconds() != fire.offset().seconds() {
        return None;
    }
    let next = moment_numbered(next_match(table, civil_second(fire))?, kept.offset);
    if instant_of(&next) < i64::from(kept.end) {
        Some(next)
    } else {
        None
    }
}

// The next due fire, or `None` if there is none. The zone gives the first instant when the clock
// shows the next match or a later time.
fn next_due<T: CivilSeconds>(table: &T, fire: &DueFire, zone: &TimeZone<'_>) -> Option<DueFire>
    requires { Matches (T.has table.now) fire.now.second }
    ensures { IsFirstDuePast (T.has table.now) (plain_zone zone.now) fire.now result }
{
    let second = next_match(table, nominal_second(fire))?;
    Some(due_of(zone, second))
}

/// The next fire after `fire`, whose civil second matches, by the same rule. `None` if there is
/// none.
pub(crate) fn next_past<T: CivilSeconds>(
    table: &T,
    fire: &EntryFire,
    zone: &TimeZone<'_>,
) -> Option<EntryFire>
    requires { Matches (T.has table.now) (civil_second fire.now) }
    ensures { IsNextFire (T.has table.now) (plain_zone zone.now) fire.now result }
{
    match fire {
        EntryFire::AsShown(moment) => match next_while_kept(table, moment, zone) {
            Some(next) => Some(EntryFire::AsShown(next)),
            None => first_past(table, fire, zone),
        },
        EntryFire::Once(due) => match next_due(table, due, zone) {
            Some(next) => Some(EntryFire::Once(next)),
            None => None,
        },
    }
}
