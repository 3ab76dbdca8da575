//! Marks: places in the order of items, where a search starts. Items are readings of civil seconds,
//! in the order of their instants.
ghost use Rattle.std.specs.Prelude.{◌≡◌, pos, neg_ℤ};
ghost use Rattle.std.specs.Int.{int_div_euclid};
ghost use Rattle.jiff_core.specs.Calendar.{IsBetween};
ghost use Rattle.cron_moments.specs.Readings.{instant};

use cron_moments::moment::{Moment, civil_second, instant_of};
use jiff::Timestamp;

/// A place in the order of items: an instant in seconds, and a civil second among the items that
/// share the instant.
#[derive(Clone, Copy)]
pub(crate) struct Mark {
    pub instant: i64,
    pub second: u32,
    pub ghost bounded: { IsBetween (neg_ℤ (pos 400_000_000_000)) (pos 400_000_000_000) instant },
}

impl Mark {
    /// A mark after all items of the second that contains `now`.
    #[inline(always)]
    pub(crate) fn behind(now: Timestamp) -> Mark
        ensures instant { result.instant ≡ int_div_euclid now.nanosecond (pos 1_000_000_000) }
        ensures second { result.second ≡ 4_294_967_295 }
    {
        Mark {
            instant: now.to_plain().floor_second(),
            second: u32::MAX,
        }
    }

    /// The mark at `item`.
    #[inline(always)]
    pub(crate) fn of(item: &Moment) -> Mark
        ensures instant { result.instant ≡ instant item.now }
        ensures second { result.second ≡ item.now.second }
    {
        Mark {
            instant: instant_of(item),
            second: civil_second(item),
        }
    }

    /// A mark after all items.
    pub(crate) fn end() -> Mark
        ensures { result.instant ≡ pos 400_000_000_000 }
    {
        Mark {
            instant: 400_000_000_000,
            second: u32::MAX,
        }
    }
}
