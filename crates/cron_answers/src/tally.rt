//! The number of fires, and the shortest and the longest wait between them.

ghost use Rattle.std.specs.Prelude.{◌≡◌, map, min};
ghost use Rattle.jiff.specs.Words.{plain_zone};
ghost use Rattle.cron_plans.specs.Tables.{has_table};
ghost use Rattle.cron_answers.specs.Tallies.{IsTally, IsTallyBy};
ghost use Rattle.cron_answers.specs.Inner.Tallies.{with_fire, with_wait};

use crate::left::Left;
use crate::row::Told;
use cron_fires::{ClockChanges, Dues, Fires};
use cron_plans::table::Table;
use jiff::Timestamp;
use jiff::tz::TimeZone;

/// The shortest and the longest wait between consecutive fires, in seconds.
#[derive(Clone, Copy, Debug, PartialEq, Eq)]
pub struct Waits {
    pub shortest: u64,
    pub longest: u64,
}

/// The number of fires, and their waits. `waits` is `None` if there are fewer than two fires.
#[derive(Clone, Copy, Debug, PartialEq, Eq)]
pub struct Tally {
    pub fires: u64,
    pub waits: Option<Waits>,
}

fn with_wait(waits: Option<Waits>, wait: u64) -> Waits
    ensures { result ≡ with_wait waits wait }
{
    match waits {
        Some(Waits { shortest, longest }) => Waits {
            shortest: shortest.min(wait),
            longest: longest.max(wait),
        },
        None => Waits {
            shortest: wait,
            longest: wait,
        },
    }
}

// The tally with one more fire, at `second`, in seconds since 1970. The fire before it was at
// `last`, or it is the first if that is `None`.
fn with_fire(tally: Tally, last: Option<i64>, second: i64) -> Tally
    ensures { result ≡ with_fire tally last second }
{
    let fires = tally.fires.saturating_add(1);
    match last {
        Some(last) => Tally {
            fires,
            waits: Some(with_wait(tally.waits, second.abs_diff(last))),
        },
        None => Tally {
            fires,
            waits: tally.waits,
        },
    }
}

// Counts the fires that are left, and finds the shortest and the longest wait between them.
fn count_left<F: Told, L: Left<F>>(left: &mut L) -> Tally
    ensures { IsTally (map F.second (L.left left.old)) result }
{
    let mut tally = Tally {
        fires: 0,
        waits: None,
    };
    let mut last = None;
    'fires: while let Some(fire) = left.take_first() {
        let second = fire.second();
        tally = with_fire(tally, last, second);
        last = Some(second);
    }
    tally
}

/// Counts the fires after `start`, up to and including `end`, by the rule `changes`, and finds the
/// waits between them.
pub fn count_fires(
    table: &Table<'_>,
    changes: ClockChanges,
    start: Timestamp,
    end: Timestamp,
    zone: &TimeZone<'_>,
) -> Tally
    ensures { IsTallyBy changes (has_table table.now) (plain_zone zone.now)
        start.nanosecond end.nanosecond result }
{
    match changes {
        ClockChanges::AsShown => count_left(&mut Fires::between(table, start, end, zone)),
        ClockChanges::Once => count_left(&mut Dues::between(table, start, end, zone)),
    }
}
