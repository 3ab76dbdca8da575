//! The readings of a civil second in a zone: the offsets at which a clock there shows it. There is
//! none in a gap, and there are two in a fold.
ghost use Rattle.std.specs.Prelude.{◌≡◌, [], ◌∷◌};
ghost use Rattle.jiff.specs.Words.{plain_zone};
ghost use Rattle.cron_moments.specs.Found.{found_items, items_if_any};
ghost use Rattle.cron_moments.specs.Readings.{reading, readings};

use crate::civil::civil_of;
use crate::moment::{Moment, moment_numbered};
use jiff::tz::{AmbiguousOffset, Offset, TimeZone};

/// The one or two readings of a civil second, the earlier one first.
#[derive(Clone, Copy, Debug, PartialEq, Eq)]
pub struct Found {
    /// The only reading, or the earlier one.
    pub first: Moment,
    /// The later reading, in a fold; else `None`.
    pub second: Option<Moment>,
}

// The only reading of a civil second, at `offset`.
#[inline(always)]
fn single(second: u32, offset: Offset) -> Found
    ensures { found_items result ≡ reading second offset ∷ [] }
{
    Found {
        first: moment_numbered(second, offset),
        second: None,
    }
}

/// The readings of the civil second with the number `second`, `None` in a gap of the zone. A zone
/// with one offset isn't searched for transitions.
#[inline(always)]
pub fn readings_of(zone: &TimeZone<'_>, second: u32) -> Option<Found>
    ensures { items_if_any result ≡ readings (plain_zone zone.now) second }
{
    match zone.to_plain() {
        jiff_tz::TimeZone::UTC | jiff_tz::TimeZone::Unknown => Some(single(second, Offset::UTC)),
        jiff_tz::TimeZone::Fixed(offset) => Some(single(second, Offset::from_plain(offset))),
        _ => readings_by_rule(zone, second),
    }
}

// The readings of a civil second in any zone, found by `jiff`. `None` in a gap.
#[inline(never)]
fn readings_by_rule(zone: &TimeZone<'_>, second: u32) -> Option<Found>
    ensures { items_if_any result ≡ readings (plain_zone zone.now) second }
{
    match zone.to_ambiguous_timestamp(civil_of(second)).offset() {
        AmbiguousOffset::Gap { .. } => None,
        AmbiguousOffset::Unambiguous { offset } => Some(single(second, offset)),
        AmbiguousOffset::Fold { before, after } => {
            if before == after {
                return Some(single(second, before));
            }
            Some(Found {
                first: moment_numbered(second, before),
                second: Some(moment_numbered(second, after)),
            })
        }
    }
}
