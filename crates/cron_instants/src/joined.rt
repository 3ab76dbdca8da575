//! Joins adjacent stretches at the same offset, such as the stretches of two years in a zone with a
//! rule. A stretch is civil seconds that the zone reads at the same offsets.
ghost use Rattle.std.specs.Prelude.{◌≡◌, ◌≤◌, ◌<◌, IfSome, IsTrue, Some, None};
ghost use Rattle.jiff.specs.Words.{plain_zone};
ghost use Rattle.cron_clocks.specs.Steady.{IsKnown};
ghost use Rattle.cron_moments.specs.Civil.{seconds_in_range};

use cron_clocks::stretch::Stretch;
use cron_moments::civil::SECONDS;
use jiff::tz::{Offset, TimeZone};

/// The offset of the stretch if it is read at only one offset, otherwise `None`.
#[inline(always)]
pub(crate) fn one_offset(stretch: &Stretch) -> Option<Offset>
    ensures { IfSome result (λ o. (stretch.now.earlier ≡ Some o) × (stretch.now.later ≡ None)) }
{
    match stretch.later {
        Some(_) => None,
        None => stretch.earlier,
    }
}

// The stretch around `second`, or `None` if it isn't read at `offset` only.
fn around_at(zone: &TimeZone<'_>, second: u32, offset: Offset) -> Option<Stretch>
    requires { second < seconds_in_range }
    ensures known { IfSome result (λ st. IsKnown (plain_zone zone.now) st) }
    ensures one { IfSome result (λ st. (st.earlier ≡ Some offset) × (st.later ≡ None)) }
    ensures around { IfSome result (λ st. (st.first ≤ second) × (second < st.end)) }
{
    let stretch = Stretch::at(zone, second);
    let own = one_offset(&stretch)?;
    if own.seconds() != offset.seconds() {
        return None;
    }
    Some(stretch)
}

// The stretch joined with the next one, if that is read at `offset` only. Otherwise the stretch
// unchanged.
fn with_next(zone: &TimeZone<'_>, stretch: &Stretch, offset: Offset) -> Stretch
    requires one { (stretch.now.earlier ≡ Some offset) × (stretch.now.later ≡ None) }
    requires known { IsKnown (plain_zone zone.now) stretch.now }
    ensures known { IsKnown (plain_zone zone.now) result }
    ensures one { (result.earlier ≡ Some offset) × (result.later ≡ None) }
    ensures first { result.first ≡ stretch.now.first }
    ensures end { stretch.now.end ≤ result.end }
{
    if i64::from(stretch.end) >= SECONDS {
        return *stretch;
    }
    let Some(next) = around_at(zone, stretch.end, offset) else {
        return *stretch;
    };
    Stretch {
        first: stretch.first,
        end: next.end,
        earlier: stretch.earlier,
        later: stretch.later,
    }
}

// The stretch joined with the previous one, if that is read at `offset` only. Otherwise the stretch
// unchanged.
fn with_previous(zone: &TimeZone<'_>, stretch: &Stretch, offset: Offset) -> Stretch
    requires one { (stretch.now.earlier ≡ Some offset) × (stretch.now.later ≡ None) }
    requires known { IsKnown (plain_zone zone.now) stretch.now }
    requires range { stretch.now.first < seconds_in_range }
    ensures known { IsKnown (plain_zone zone.now) result }
    ensures first { result.first ≤ stretch.now.first }
    ensures end { result.end ≡ stretch.now.end }
{
    if stretch.first == 0 {
        return *stretch;
    }
    let Some(last) = around_at(zone, stretch.first - 1, offset) else {
        return *stretch;
    };
    Stretch {
        first: last.first,
        end: stretch.end,
        earlier: stretch.earlier,
        later: stretch.later,
    }
}

/// The stretch around `second`, joined with the adjacent stretches that are read at the same single
/// offset. A gap or a fold is returned unchanged.
#[inline(never)]
pub(crate) fn join_around(zone: &TimeZone<'_>, stretch: &Stretch, second: u32) -> Stretch
    requires low { stretch.now.first ≤ second }
    requires high { second < stretch.now.end }
    requires range { second < seconds_in_range }
    requires known { IsKnown (plain_zone zone.now) stretch.now }
    ensures known { IsKnown (plain_zone zone.now) result }
    ensures low { result.first ≤ second }
    ensures high { second < result.end }
{
    let Some(offset) = one_offset(stretch) else {
        return *stretch;
    };
    with_previous(zone, &with_next(zone, stretch, offset), offset)
}
