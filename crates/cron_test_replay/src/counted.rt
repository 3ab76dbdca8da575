//! Fires and due fires over long times. A row has five parts: the expression, the zone, two
//! instants, and the answer. The answer covers the fires after the first instant and up to the
//! second one: their number, and a checksum over all of them in order.
//!
//! The numbers of fires were made from the zone database of an ordinary system (2025b): for each
//! second it gave what the clock shows. The numbers of due fires were made like the answers of
//! `dues_between.txt`. The rows of `<-03>3<-02>,M11.1.0/0,M2.3.0/0` are of São Paulo in 2018. The
//! last two rows of `dues_of_days.txt` have fixed times, which Debian's cron, cronie and bcron run
//! once on each day of the year.

use crate::instants::start_at;
use anyhow::Result;
use cron::Schedule;
use cron_fires::{Dues, Fires};
use cron_test_rows::{Row, zone_file, zone_named};
use jiff::tz::TimeZone;
use jiff::{SignedDuration, Timestamp};

/// The checksum is multiplied by this factor before a number is added to it.
const FACTOR: i64 = 1_000_003;

/// A checksum is less than this and greater than its negative. Modulus and factor are prime.
const MODULUS: i64 = 2_147_483_647;

/// Compares the number `count` of fires and the checksum of `numbers` with the row.
fn check(row: &mut Row<'_>, asked: &str, count: usize, numbers: &[i64]) -> Result<()> {
    let mut sum = 0_i64;
    for number in numbers {
        sum = sum.wrapping_mul(FACTOR).wrapping_add(*number) % MODULUS;
    }
    row.add("", &count)?;
    row.add(", ", &sum)?;
    row.check(asked)
}

/// Compares the fires of one run after another, each over `hours` hours, from `start` up to `end`.
fn ask_hours<'x>(
    row: &mut Row<'_>,
    schedule: &'x Schedule,
    zone: &'x TimeZone<'x>,
    (start, end): (Timestamp, Timestamp),
    hours: i64,
) -> Result<()> {
    let mut numbers = Vec::new(row.alloc());
    let mut from = start;
    for _ in 0..u64::MAX {
        if from >= end {
            break;
        }
        let to = from
            .saturating_add(SignedDuration::from_secs(hours.saturating_mul(3_600)))?
            .min(end);
        for fire in Fires::between(schedule, from, to, zone) {
            numbers.push(fire.timestamp().as_second())?;
        }
        from = to;
    }
    let asked = format!(in row.alloc(); "runs over {hours} hours")?;
    check(row, asked.as_str(), numbers.len(), numbers.as_slice())
}

/// Compares the fires of runs of ten fires each. Each run begins past the last fire before it.
fn ask_tens<'x>(
    row: &mut Row<'_>,
    schedule: &'x Schedule,
    zone: &'x TimeZone<'x>,
    (start, end): (Timestamp, Timestamp),
) -> Result<()> {
    let mut numbers = Vec::new(row.alloc());
    let mut run = Fires::after(schedule, start, zone);
    for count in 1..u64::MAX {
        let Some(fire) = run.next() else {
            break;
        };
        if fire.timestamp() > end {
            break;
        }
        numbers.push(fire.timestamp().as_second())?;
        if count % 10 == 0 {
            run = Fires::past(schedule, &fire, zone);
        }
    }
    check(row, "ten by ten", numbers.len(), numbers.as_slice())
}

/// Replays a row of fires: in runs of ten years, of one hour each, and of ten fires each.
pub(crate) fn ask_fires(row: &mut Row<'_>) -> Result<()> {
    let (text, name) = (row.cell(), row.cell());
    let file = zone_file(row, name)?;
    let zone = zone_named(name, &file)?;
    let schedule = Schedule::from_str(row.alloc(), text)?;
    let stretch = (start_at(row.cell(), &zone)?, start_at(row.cell(), &zone)?);
    ask_hours(row, &schedule, &zone, stretch, 87_600)?;
    ask_hours(row, &schedule, &zone, stretch, 1)?;
    ask_tens(row, &schedule, &zone, stretch)
}

/// Replays a row of due fires. Each adds two numbers: its instant and the civil second that
/// matches.
pub(crate) fn ask_dues(row: &mut Row<'_>) -> Result<()> {
    let (text, name) = (row.cell(), row.cell());
    let file = zone_file(row, name)?;
    let zone = zone_named(name, &file)?;
    let schedule = Schedule::from_str(row.alloc(), text)?;
    let (start, end) = (start_at(row.cell(), &zone)?, start_at(row.cell(), &zone)?);
    let mut numbers = Vec::new(row.alloc());
    let mut count = 0_usize;
    for fire in Dues::between(&schedule, start, end, &zone) {
        let instant = fire.timestamp().as_second();
        let shown = instant.wrapping_add(i64::from(fire.offset().seconds()));
        numbers.push(instant)?;
        numbers.push(shown.wrapping_sub(i64::from(fire.seconds_past())))?;
        count = count.saturating_add(1);
    }
    check(row, "Dues::between", count, numbers.as_slice())
}
