//! The costs and the memory of the entries of an agenda, beside the same entries in an ordered set
//! of std.

use crate::lines::varied_lines;
use crate::rounds::{least_cost, longest_call};
use crate::sorted::Sorted;
use crate::walks::CHICAGO;
use anyhow::{Context, Result, ensure};
use cron::Schedule;
use cron_agenda::Agenda;
use cron_fires::{ClockChanges, fields_of};
use cron_units::fields::ScheduleFields;
use jiff::Timestamp;
use jiff::tz::{Offset, TimeZone};
use std::alloc::Global;
use std::fs;

/// The numbers of entries that are measured.
const SIZES: [u32; 3] = [1_000, 100_000, 1_000_000];

/// The number of schedules. The entries use them in turn.
const SCHEDULES: usize = 10_000;

/// The number of fires that are taken in a round.
const FIRES: u32 = 200_000;

const ROUNDS: u32 = 5;

/// The bytes of a page of memory.
const PAGE: usize = 4_096;

/// What all entries share: the schedules, the zones and the start.
#[derive(Drop)]
struct Plan<'z> {
    tables: Vec<ScheduleFields>,
    zones: &'z [TimeZone<'z>],
    start: Timestamp,
}

/// The seven sets of each of the first `SCHEDULES` varied lines, which are cron expressions.
fn tables_of(alloc: Global) -> Result<Vec<ScheduleFields>> {
    let mut tables = Vec::with_capacity(alloc, SCHEDULES)?;
    for line in varied_lines(alloc)?.iter().take(SCHEDULES) {
        tables.push(fields_of(&Schedule::from_str(alloc, line.as_str())?))?;
    }
    Ok(tables)
}

/// The seven sets of entry `at`, and the index of its zone.
fn entry_at(plan: &Plan<'_>, at: usize) -> Result<(ScheduleFields, usize)> {
    let tables = plan.tables.as_slice();
    let table = tables.get(at % SCHEDULES).context("no schedule")?;
    Ok((*table, at % 3))
}

/// Adds entry number `at`.
fn add(agenda: &mut Agenda<ScheduleFields>, plan: &Plan<'_>, at: u32) -> Result<()> {
    let (table, zone) = entry_at(plan, at as usize)?;
    let changes = ClockChanges::AsShown;
    agenda.add(table, changes, plan.start, plan.zones, zone)?;
    Ok(())
}

/// Adds `count` entries, whose memory was reserved before.
fn fill(agenda: &mut Agenda<ScheduleFields>, plan: &Plan<'_>, count: u32) -> Result<()> {
    for at in 0..count {
        add(agenda, plan, at)?;
    }
    Ok(())
}

/// Adds the same `count` entries to an ordered set.
fn fill_sorted(sorted: &mut Sorted, plan: &Plan<'_>, count: u32) -> Result<()> {
    for at in 0..count as usize {
        let (table, zone) = entry_at(plan, at)?;
        sorted.add(table, plan.start, plan.zones, zone)?;
    }
    Ok(())
}

/// Takes `FIRES` fires, and returns the sum of their entries' ids. `None` if there are fewer fires.
fn take(agenda: &mut Agenda<ScheduleFields>, zones: &[TimeZone<'_>]) -> Option<u64> {
    let mut sum: u64 = 0;
    for _ in 0..FIRES {
        let Ok(Some(fire)) = agenda.next(zones) else {
            return None;
        };
        sum = sum.wrapping_add(fire.id);
    }
    Some(sum)
}

/// Takes `FIRES` fires from an ordered set, and returns the sum of their entries' places. `None` if
/// there are fewer fires.
fn take_sorted(sorted: &mut Sorted, zones: &[TimeZone<'_>]) -> Option<u64> {
    let mut sum: u64 = 0;
    for _ in 0..FIRES {
        let place = sorted.next(zones).ok()?;
        sum = sum.wrapping_add(place as u64);
    }
    Some(sum)
}

/// The sum of `sum` and `round`, or `None` if one of them is missing.
fn sum_with(sum: Option<u64>, round: Option<u64>) -> Option<u64> {
    Some(sum?.wrapping_add(round?))
}

/// The bytes of memory that the program holds, as `/proc/self/statm` counts its pages.
fn held_bytes(rt: &HostRuntime) -> Result<usize> {
    let text = fs::read_to_string(rt, "/proc/self/statm")?;
    let pages = text.as_str().split(' ').nth(1).context("no pages")?;
    Ok(pages.parse::<usize>()?.saturating_mul(PAGE))
}

/// Prints what a fire of an ordered set costs, and returns the sum of the places of all rounds'
/// fires.
fn time_sorted(rt: &HostRuntime, plan: &Plan<'_>, count: u32) -> Result<u64> {
    let mut sorted = Sorted::new(rt.alloc());
    fill_sorted(&mut sorted, plan, count)?;
    let mut sum = Some(0);
    let cost = least_cost(rt, ROUNDS, FIRES, || {
        sum = sum_with(sum, take_sorted(&mut sorted, plan.zones));
    })?;
    let sum = sum.context("agenda: the set has no more fires")?;
    println!(rt; "agenda | {count} | a fire, BTreeSet | {cost}")?;
    Ok(sum)
}

/// Prints what a fire of an agenda costs, and returns the sum of the ids of all rounds' fires.
fn time_fires(
    rt: &HostRuntime,
    agenda: &mut Agenda<ScheduleFields>,
    plan: &Plan<'_>,
    count: u32,
) -> Result<u64> {
    let mut sum = Some(0);
    let cost = least_cost(rt, ROUNDS, FIRES, || {
        sum = sum_with(sum, take(agenda, plan.zones));
    })?;
    let sum = sum.context("agenda: it has no more fires")?;
    println!(rt; "agenda | {count} | a fire | {cost}")?;
    Ok(sum)
}

/// Adds `count` entries, and prints what one costs to add, and how much memory it takes.
fn time_adds(
    rt: &HostRuntime,
    agenda: &mut Agenda<ScheduleFields>,
    plan: &Plan<'_>,
    count: u32,
) -> Result<()> {
    let before = held_bytes(rt)?;
    agenda.reserve(count as usize)?;
    let mut is_whole = true;
    let cost = least_cost(
        rt,
        1,
        count,
        || is_whole &= fill(agenda, plan, count).is_ok(),
    )?;
    ensure!(is_whole, "agenda: an entry is refused");
    let taken = held_bytes(rt)?.saturating_sub(before);
    println!(rt; "agenda | {count} | add | {cost}")?;
    println!(rt;
        "agenda | {count} | bytes an entry | {}",
        taken / (count as usize).max(1)
    )?;
    Ok(())
}

/// Prints the times of the longest of `count` calls that take a fire, of `count` that remove an
/// entry, and of `count` that add one again. The memory for these is reserved before.
fn time_pauses(
    rt: &HostRuntime,
    agenda: &mut Agenda<ScheduleFields>,
    plan: &Plan<'_>,
    count: u32,
) -> Result<()> {
    let next = longest_call(rt, count, |_| agenda.next(plan.zones).is_ok())?;
    println!(rt; "agenda | {count} | longest next | {next}")?;
    let remove = longest_call(rt, count, |at| agenda.remove(u64::from(at)))?;
    println!(rt; "agenda | {count} | longest remove | {remove}")?;
    agenda.reserve(count as usize)?;
    let mut is_whole = true;
    let added = longest_call(rt, count, |at| is_whole &= add(agenda, plan, at).is_ok())?;
    ensure!(is_whole, "agenda: an entry is refused");
    println!(rt; "agenda | {count} | longest add | {added}")?;
    Ok(())
}

/// Prints the costs of `count` entries.
fn time_size(rt: &HostRuntime, plan: &Plan<'_>, count: u32) -> Result<()> {
    let mut agenda = Agenda::new(rt.alloc());
    time_adds(rt, &mut agenda, plan, count)?;
    let ids = time_fires(rt, &mut agenda, plan, count)?;
    let places = time_sorted(rt, plan, count)?;
    ensure!(ids == places, "agenda: other fires than those of the set");
    time_pauses(rt, &mut agenda, plan, count)
}

/// Prints the costs at each of `SIZES`.
pub fn run(rt: &HostRuntime) -> Result<()> {
    let zones = [
        TimeZone::UTC,
        TimeZone::posix(CHICAGO)?,
        TimeZone::fixed(Offset::from_seconds(19_800)?),
    ];
    let plan = Plan {
        tables: tables_of(rt.alloc())?,
        zones: &zones,
        start: "2018-01-01T00:00:00Z".parse::<Timestamp>()?,
    };
    for count in SIZES {
        time_size(rt, &plan, count)?;
    }
    Ok(())
}
