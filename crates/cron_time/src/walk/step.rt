//! One call of a walk in either direction. The items of a walk are the readings of the civil
//! seconds that match. A stretch is civil seconds that the zone reads at the same offsets.
ghost use Rattle.std.specs.Prelude.{◌≡◌, ◌/◌, ◌%◌, ◌<◌, true, if◌then◌else◌};
ghost use Rattle.jiff.specs.Words.{plain_zone};
ghost use Rattle.cron_moments.specs.Civil.{seconds_in_range};
ghost use Rattle.cron_moments.specs.CivilDates.{date_numbered};
ghost use Rattle.cron_time.specs.Walk.Inner.Placed.{stand_of, IsPlaced, Knows};
ghost use Rattle.cron_time.specs.Walk.Inner.Stand as kept;
ghost use Rattle.cron_time.specs.Search.Inner.Blocks.{AllFail};
ghost use Rattle.cron_time.specs.Search.Inner.Numbers.{beyond, matches_second, way_of};
ghost use Rattle.cron_time.specs.Walk.Inner.Stop.{IsReached, LeadsTo};
ghost use Rattle.cron_time.specs.Matches.{matches_date};
ghost use Rattle.cron_time.specs.declared.walk.state.Stage.TheVariants as stage;

use crate::search::days::some_month_has_a_day;
use crate::search::members::Members;
use crate::search::onward::{days_past, readings_in, search_onward, search_past};
use crate::walk::bounds::bound;
use crate::walk::state::{Stage, State};
use cron_moments::moment::civil_second;
use cron_units::fields::ScheduleFields;
use cron_units::way::Way;
use jiff::Timestamp;
use jiff::tz::TimeZone;

// Takes the walk to the first item from its bound on, in the direction `way`. The bound is the
// civil second where a walk from its start begins to search.
fn from_bound(fields: &ScheduleFields, zone: &TimeZone<'_>, way: Way, state: &mut State)
    requires known { Knows fields.now (plain_zone zone.now) state.old }
    ensures leads { LeadsTo way fields.now
        (plain_zone zone.now)
        (kept.Start state.old.start.nanosecond)
        (stand_of state.new) }
    ensures known { Knows fields.now (plain_zone zone.now) state.new }
{
    match bound(
        way,
        Timestamp::from_plain(state.start),
        zone,
        &mut state.stretch,
    ) {
        Some(from) => {
            let reached = search_onward(
                fields,
                zone,
                way,
                from,
                &mut state.minute,
                &mut state.days,
                &mut state.stretch,
            );
            state.arrive(way, reached)
        }
        None => state.arrive(way, None),
    }
}

// Takes the walk from its start to its first item. If no month has a day of the set, the walk ends
// at once, and its bound isn't computed.
#[inline(never)]
fn from_start(fields: &ScheduleFields, zone: &TimeZone<'_>, way: Way, state: &mut State)
    requires known { Knows fields.now (plain_zone zone.now) state.old }
    ensures leads { LeadsTo way fields.now
        (plain_zone zone.now)
        (kept.Start state.old.start.nanosecond)
        (stand_of state.new) }
    ensures known { Knows fields.now (plain_zone zone.now) state.new }
{
    let members = Members::of(fields);
    if !some_month_has_a_day(&members) {
        state.arrive(way, None);
        return;
    }
    from_bound(fields, zone, way, state)
}

// Takes the walk to the first item past its civil second, which may lie in another day or stretch.
#[inline(never)]
fn past_item_elsewhere(fields: &ScheduleFields, zone: &TimeZone<'_>, way: Way, state: &mut State)
    requires in_range { state.old.earlier.second < seconds_in_range }
    requires matching { matches_date fields.now
        (date_numbered (state.old.earlier.second / 86_400)).0
        ≡ true }
    requires member { matches_second fields.now (state.old.earlier.second % 86_400) ≡ true }
    requires known { Knows fields.now (plain_zone zone.now) state.old }
    ensures reached { IsReached way
        fields.now
        (plain_zone zone.now)
        (beyond way state.old.earlier.second)
        (stand_of state.new) }
    ensures known { Knows fields.now (plain_zone zone.now) state.new }
{
    let item = state.earlier;
    let found = search_past(
        fields,
        zone,
        way,
        civil_second(&item),
        &mut state.minute,
        &mut state.days,
        &mut state.stretch,
    );
    state.arrive(way, found)
}

// Takes the walk to the first item of the days past its own day, which has no more times that
// match. `BACK` repeats `way` as a constant, so that each direction has code of its own.
#[inline(never)]
fn past_own_day<const BACK: bool>(
    fields: &ScheduleFields,
    zone: &TimeZone<'_>,
    way: Way,
    state: &mut State,
)
    requires tied { way ≡ way_of BACK }
    requires day { state.old.minute.day ≡ state.old.earlier.second / 86_400 }
    requires none { AllFail way
        (matches_second fields.now)
        (beyond way (state.old.earlier.second % 86_400)) }
    requires matching { matches_date fields.now
        (date_numbered (state.old.earlier.second / 86_400)).0
        ≡ true }
    requires known { Knows fields.now (plain_zone zone.now) state.old }
    ensures reached { IsReached way
        fields.now
        (plain_zone zone.now)
        (beyond way state.old.earlier.second)
        (stand_of state.new) }
    ensures known { Knows fields.now (plain_zone zone.now) state.new }
{
    let day = state.minute.day();
    let found = days_past::<BACK>(
        fields,
        zone,
        way,
        day,
        &mut state.minute,
        &mut state.days,
        &mut state.stretch,
    );
    state.arrive(way, found)
}

// Takes the walk to the first item past its civil second. That is usually in the same day and
// stretch, so the code for this case is here, and the other cases have functions of their own.
#[inline(always)]
fn past_item<const BACK: bool>(
    fields: &ScheduleFields,
    zone: &TimeZone<'_>,
    way: Way,
    state: &mut State,
)
    requires tied { way ≡ way_of BACK }
    requires in_range { state.old.earlier.second < seconds_in_range }
    requires matching { matches_date fields.now
        (date_numbered (state.old.earlier.second / 86_400)).0
        ≡ true }
    requires member { matches_second fields.now (state.old.earlier.second % 86_400) ≡ true }
    requires known { Knows fields.now (plain_zone zone.now) state.old }
    ensures reached { IsReached way
        fields.now
        (plain_zone zone.now)
        (beyond way state.old.earlier.second)
        (stand_of state.new) }
    ensures known { Knows fields.now (plain_zone zone.now) state.new }
{
    let second = civil_second(&state.earlier);
    let Some(place) = state.minute.place_of(second) else {
        return past_item_elsewhere(fields, zone, way, state);
    };
    let members = Members::of(fields);
    let Some(next) = state.minute.past_in_day(&members, way, place) else {
        return past_own_day::<BACK>(fields, zone, way, state);
    };
    let found = readings_in(zone, next, &state.stretch);
    if found.is_none() {
        return past_item_elsewhere(fields, zone, way, state);
    }
    state.arrive(way, found)
}

// Takes the walk from one of two readings, the later one if `later` is true, to the other one if
// that lies in the direction `way`. Else takes it past both.
#[inline(never)]
fn from_reading(
    fields: &ScheduleFields,
    zone: &TimeZone<'_>,
    way: Way,
    later: bool,
    state: &mut State,
)
    requires stage { state.old.stage ≡ if later then stage.Later else stage.Earlier }
    requires placed { IsPlaced fields.now (plain_zone zone.now) (stand_of state.old) }
    requires known { Knows fields.now (plain_zone zone.now) state.old }
    ensures leads { LeadsTo way fields.now
        (plain_zone zone.now)
        (stand_of state.old)
        (stand_of state.new) }
    ensures known { Knows fields.now (plain_zone zone.now) state.new }
{
    match way {
        Way::Ahead if !later => state.stage = Stage::Later,
        Way::Back if later => state.stage = Stage::Earlier,
        _ => past_item_elsewhere(fields, zone, way, state),
    }
}

// Takes a walk one call on in the direction `way`: to the next item, or to the end if there is
// none. `BACK` repeats `way` as a constant, so that each direction has code of its own.
fn step_one_way<const BACK: bool>(
    fields: &ScheduleFields,
    zone: &TimeZone<'_>,
    way: Way,
    state: &mut State,
)
    requires tied { way ≡ way_of BACK }
    requires placed { IsPlaced fields.now (plain_zone zone.now) (stand_of state.old) }
    requires known { Knows fields.now (plain_zone zone.now) state.old }
    ensures leads { LeadsTo way fields.now
        (plain_zone zone.now)
        (stand_of state.old)
        (stand_of state.new) }
    ensures known { Knows fields.now (plain_zone zone.now) state.new }
{
    match state.stage {
        Stage::Start => from_start(fields, zone, way, state),
        Stage::Single => past_item::<BACK>(fields, zone, way, state),
        Stage::Earlier => from_reading(fields, zone, way, false, state),
        Stage::Later => from_reading(fields, zone, way, true, state),
        Stage::Ended => {}
    }
}

/// Takes a walk one call on in the direction `way`: to the next item, or to the end if there is
/// none. A walk at its end stays there.
#[inline(always)]
pub fn step(fields: &ScheduleFields, zone: &TimeZone<'_>, way: Way, state: &mut State)
    requires placed { IsPlaced fields.now (plain_zone zone.now) (stand_of state.old) }
    requires known { Knows fields.now (plain_zone zone.now) state.old }
    ensures leads { LeadsTo way fields.now
        (plain_zone zone.now)
        (stand_of state.old)
        (stand_of state.new) }
    ensures known { Knows fields.now (plain_zone zone.now) state.new }
{
    match way {
        Way::Ahead => step_one_way::<false>(fields, zone, Way::Ahead, state),
        Way::Back => step_one_way::<true>(fields, zone, Way::Back, state),
    }
}
