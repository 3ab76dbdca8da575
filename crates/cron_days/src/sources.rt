//! The days whose civil seconds go to one allowed day.
ghost use Rattle.std.specs.Prelude.{◌≡◌, ◌<◌, true};
ghost use Rattle.cron_moments.specs.Civil.{days_in_range};
ghost use Rattle.cron_days.specs.Days.{is_day};
ghost use Rattle.cron_days.specs.Inner.Sources.{AreSources, IsFirstSource, IsLastSource};

use crate::days::Days;
use cron_moments::civil::DAYS;
use cron_units::way::Way;

/// Days in a row, from `first` to `last`.
#[derive(Clone, Copy)]
pub(crate) struct Sources {
    pub(crate) first: u32,
    pub(crate) last: u32,
}

// The day after the last allowed one before `target`.
fn first_source<D: Days>(days: &D, target: u32) -> u32
    requires { target < days_in_range }
    ensures { IsFirstSource (D.allows days.now) target result }
{
    match days.nearest_day(Way::Back, i64::from(target) - 1) {
        Some(before) => before + 1,
        None => 0,
    }
}

// The day before the first allowed one after `target`.
fn last_source<D: Days>(days: &D, target: u32) -> u32
    requires { target < days_in_range }
    ensures { IsLastSource (D.allows days.now) target result }
{
    match days.nearest_day(Way::Ahead, i64::from(target) + 1) {
        Some(after) => after - 1,
        None => DAYS - 1,
    }
}

/// The days whose nearest allowed day in direction `way` is `target`.
pub(crate) fn sources_of<D: Days>(days: &D, way: Way, target: u32) -> Sources
    requires { is_day (D.allows days.now) target ≡ true }
    ensures { AreSources way (D.allows days.now) target result.first result.last }
{
    match way {
        Way::Ahead => Sources {
            first: first_source(days, target),
            last: target,
        },
        Way::Back => Sources {
            first: target,
            last: last_source(days, target),
        },
    }
}
