//! Fires as a clock shows them, and those between two instants, found in other ways too.
//!
//! The answers of `fires_between.txt` were made with the zone database of an ordinary system
//! (2025b): it gave what the clock shows at each second about the transitions of 2025 and 2026. The
//! answers of `fires_counted_by_hand.txt` were counted by hand, from the offsets of the rule and
//! the ends of the range.

use anyhow::Result;
use cron::Schedule;
use cron::schedule::Moment;
use cron_fires::{first_fire_after, first_fire_past};
use cron_test_rows::Row;
use jiff::tz::TimeZone;
use jiff::{SignedDuration, Timestamp};
use std::alloc::AllocError;

/// Adds the text of a fire. If the row's answer has the parts of the fire, it adds these: what the
/// clock shows, the instant and the offset.
pub(crate) fn add(row: &mut Row<'_>, fire: &Option<Moment>) -> Result<(), AllocError> {
    let Some(moment) = fire else {
        return row.add(", ", &"None");
    };
    if row.wanted().split_once(" at ").is_none() {
        return row.add(", ", moment);
    }
    row.add(", ", &moment.datetime())?;
    row.add(" at ", &moment.timestamp())?;
    row.add(" ", &moment.offset().seconds())
}

/// Compares the fires after `last` and up to `now`, found in two other ways: by one call for each,
/// and by a walk. The walk goes from three days before `last` to three days after `now`, as no
/// clock is further from UTC than 26 hours. Its items after `last` and up to `now` are sorted by
/// their instants.
pub(crate) fn ask_otherwise<'x>(
    row: &mut Row<'_>,
    schedule: &'x Schedule,
    zone: &'x TimeZone<'x>,
    last: Timestamp,
    now: Timestamp,
) -> Result<()> {
    let mut next = first_fire_after(schedule, last, zone);
    for _ in 0..u64::MAX {
        let Some(fire) = next else {
            break;
        };
        if fire.timestamp() > now {
            break;
        }
        add(row, &Some(fire))?;
        next = first_fire_past(schedule, &fire, zone);
    }
    row.check("first_fire_past")?;
    let reach = SignedDuration::from_hours(72);
    let begin = last.saturating_sub(reach)?;
    let end = now.saturating_add(reach)?;
    let mut fires = Vec::new(row.alloc());
    for item in schedule.after(begin, zone) {
        let instant = item.timestamp();
        if instant > end {
            break;
        }
        if last < instant && instant <= now {
            fires.push(item)?;
        }
    }
    fires.sort_by_key(|fire| (fire.timestamp().as_second(), fire.datetime()))?;
    for fire in fires {
        add(row, &Some(fire))?;
    }
    row.check("a walk, sorted")
}
