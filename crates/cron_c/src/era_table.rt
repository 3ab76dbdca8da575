//! The eras of the table of transitions in a zone file: one before the first transition, and one
//! from each of them on.

ghost use Rattle.std.specs.Prelude.{◌≡◌, ◌≤◌, ◌<◌, ◌↔◌, ◌+◌, None, true, length};
ghost use Rattle.jiff_tz.specs.Tzif.{transition_at, type_after};
ghost use Rattle.cron_c.specs.ZoneFiles.{AreErasIn, HasDoubleTransition, IsEraOf, SaysRulePast, WritesEras, start_of, transition_count};

use crate::era::CronEra;
use crate::status::Status;
use crate::zone::struct_of;
use jiff_core::Offset;
use jiff_tz::{Abbreviation, Tzif, posix};

// The UTC second of the transition at place `at`.
fn second_of(table: &Tzif, at: usize) -> i64
    requires { at < transition_count table.now }
    ensures { result ≡ (transition_at table.now at).second }
{
    table.transitions()[at].second
}

// The start of the era after `count` transitions, as a UTC second. The first era starts before
// every instant.
fn start_past(table: &Tzif, count: usize) -> i64
    requires { count ≤ transition_count table.now }
    ensures { result ≡ start_of table.now count }
{
    if count == 0 {
        i64::MIN
    } else {
        second_of(table, count - 1)
    }
}

// The offset of the clock after `count` transitions.
fn offset_past(table: &Tzif, count: usize) -> Offset
    requires { count ≤ transition_count table.now }
    ensures { result ≡ (type_after table.now count).offset }
{
    if count == 0 {
        table.first().offset
    } else {
        table.transitions()[count - 1].after.offset
    }
}

/// The rule of a clock that always has `offset`.
pub fn fixed_rule(offset: Offset) -> posix::TimeZone
    ensures offset { result.std_offset ≡ offset }
    ensures saving { result.dst ≡ None }
{
    posix::TimeZone {
        std_abbrev: Abbreviation::utc(),
        std_offset: offset,
        dst: None,
    }
}

// The rule of the clock after `count` transitions. After all of them it is the table's rule, if it
// has one.
fn rule_past(table: &Tzif, count: usize) -> posix::TimeZone
    requires { count ≤ transition_count table.now }
    ensures { SaysRulePast table.now count result }
{
    if count < table.transitions().len() {
        return fixed_rule(offset_past(table, count));
    }
    match table.posix_tz() {
        Some(rule) => rule,
        None => fixed_rule(offset_past(table, count)),
    }
}

// The era after `count` transitions.
fn era_past(table: &Tzif, count: usize) -> CronEra
    requires { count ≤ transition_count table.now }
    ensures { IsEraOf table.now count result }
{
    CronEra {
        starts: start_past(table, count),
        zone: struct_of(rule_past(table, count)),
    }
}

// Returns true if two neighbouring transitions are at the same second.
fn has_double_transition(table: &Tzif) -> bool
    ensures { (result ≡ true) ↔ HasDoubleTransition table.now }
{
    for at in 1..table.transitions().len() {
        if second_of(table, at - 1) == second_of(table, at) {
            return true;
        }
    }
    false
}

// Writes the `needed` eras of `table` to the front of `eras`.
fn fill(table: &Tzif, needed: usize, eras: &mut [CronEra])
    requires needed { needed ≡ transition_count table.now + 1 }
    requires room { needed ≤ length eras.old }
    ensures { AreErasIn table.now needed eras.old eras.new }
{
    for at in 0..needed {
        eras[at] = era_past(table, at);
    }
}

/// Writes the eras of `table` to the front of `eras` if there is room for all of them, and writes
/// their count. It returns `More` without room for them, and `BadZone` if two transitions share a
/// second.
pub fn write_eras(table: &Tzif, eras: &mut [CronEra], count: &mut usize) -> Status
    ensures { WritesEras table.now eras.old eras.new count.new result }
{
    if has_double_transition(table) {
        *count = 0;
        return Status::BadZone;
    }
    let needed = table.transitions().len() + 1;
    *count = needed;
    if eras.len() < needed {
        return Status::More;
    }
    fill(table, needed, eras);
    Status::Done
}
