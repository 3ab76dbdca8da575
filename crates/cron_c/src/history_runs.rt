//! Lists of the items of a history, made era by era from the lists of the eras' zones.

ghost use Rattle.std.specs.Prelude.{◌<◌, length};
ghost use Rattle.jiff.specs.Words.{plain_zone};
ghost use Rattle.cron_instants.specs.Instants.{IsBy};
ghost use Rattle.cron_c.specs.Arrays.{Fills};
ghost use Rattle.cron_c.specs.Histories.{FillsEra, FillsIn, IsBeyond, IsHistoryItem, fires_from};
ghost use Rattle.cron_c.specs.Structs.{IsItem};

use crate::era::{CronEra, zone_at};
use crate::history::{Begin, begin_in, eras_by, least_second, until_in};
use crate::item::CronItem;
use crate::places::{place_of, place_past};
use crate::runs::{list_between, list_past};
use crate::status::Status;
use cron_seconds::civil_seconds::CivilSeconds;
use jiff::Timestamp;
use jiff::tz::TimeZone;

// Writes the items of `zone` after `begin` with an instant at or before `until`, as far as they
// fit, and their count.
fn list_from<'a, S: CivilSeconds>(
    set: &'a S,
    zone: &'a TimeZone<'a>,
    begin: &Begin,
    until: Timestamp,
    items: &mut [CronItem],
    count: &mut usize,
) -> Status
    ensures { Fills IsItem
        (fires_from (S.has set.now) (plain_zone zone.now) begin.now until.nanosecond)
        items.old items.new count.new result }
{
    match begin {
        Begin::After(last) => list_between(set, *last, until, zone, items, count),
        Begin::Past(item) => list_past(set, item, until, zone, items, count),
    }
}

// Writes the items of the era at place `at` after `begin`, with an instant at or before `now`, as
// far as they fit, and their count. It returns `BadZone` if the era shows that `eras` are no
// history.
fn fill_era<S: CivilSeconds>(
    set: &S,
    eras: &[CronEra],
    at: usize,
    begin: &Begin,
    now: Timestamp,
    items: &mut [CronItem],
    count: &mut usize,
) -> Status
    requires { at < length eras.now }
    ensures { FillsEra (S.has set.now) eras.now at begin.now now.nanosecond
        items.old items.new count.new result }
{
    *count = 0;
    let Some(zone) = zone_at(eras, at) else {
        return Status::BadZone;
    };
    let Some(there) = begin_in(&eras[at], begin) else {
        return Status::Done;
    };
    let Some(until) = until_in(eras, at, now) else {
        return Status::Done;
    };
    list_from(set, &zone, &there, until, items, count)
}

/// Writes the items of a history after `begin` with an instant at or before `now`, as far as they
/// fit, and their count. It returns `BadZone` if an era shows that `eras` are no history.
pub fn fill_history<S: CivilSeconds>(
    set: &S,
    eras: &[CronEra],
    begin: &Begin,
    now: Timestamp,
    items: &mut [CronItem],
    count: &mut usize,
) -> Status
    ensures { FillsIn eras.now
        (λ r. IsHistoryItem (S.has set.now) eras.now r × IsBeyond begin.now r
        × IsBy now.nanosecond r)
        items.old items.new count.new result }
{
    let most = items.len();
    let end = eras_by(eras, now);
    let mut at = place_of(eras, least_second(begin));
    let mut written = 0;
    while at < end {
        let (_, room) = items.split_at_mut(written);
        let mut more = 0;
        match fill_era(set, eras, at, begin, now, room, &mut more) {
            Status::Done => {}
            Status::More => {
                *count = most;
                return Status::More;
            }
            _ => {
                *count = 0;
                return Status::BadZone;
            }
        }
        written += more;
        at = place_past(set, eras, at);
    }
    *count = written;
    Status::Done
}
