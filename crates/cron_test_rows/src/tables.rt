//! Schedules and zones that rows name.

use crate::Row;
use anyhow::{Context, Result, ensure};
use cron_text::{no_ordinals, read_into};
use cron_units::fields::ScheduleFields;
use jiff::tz::{Offset, TimeZone, Tzif};
use std::alloc::Global;
use std::fs;

/// The seven sets of each expression in a list with `separator` between them.
pub fn sets_of(alloc: Global, expressions: &str, separator: &str) -> Result<Vec<ScheduleFields>> {
    let mut schedules = Vec::new(alloc);
    for expression in expressions.split(separator) {
        let mut fields = no_ordinals();
        ensure!(read_into(expression, &mut fields), "no expression");
        schedules.push(fields)?;
    }
    Ok(schedules)
}

/// The file of a zone `file NAME`, or `None` if `zone` is no such text or `zones.txt` lacks the
/// name. A line of `zones.txt` has the name of a zone and the bytes of its file, in hexadecimal
/// digits.
pub fn zone_file(row: &Row<'_>, zone: &str) -> Result<Option<Tzif>> {
    let Some(name) = zone.strip_prefix("file ") else {
        return Ok(None);
    };
    let zones = fs::read_to_string(row.rt, "zones.txt")?;
    for line in zones.as_str().lines() {
        let (own, digits) = line.split_once(" | ").context("no digits")?;
        if own == name {
            let bytes = hex::decode(row.alloc(), digits)?;
            return Ok(Some(Tzif::parse(row.alloc(), None, bytes.as_slice())?));
        }
    }
    Ok(None)
}

// The rule text of a place, as in docs/ZONES.md. Any other name is a rule text itself.
fn rule_of(name: &str) -> &str {
    match name {
        "Chicago" => "CST6CDT,M3.2.0,M11.1.0",
        "New York" => "EST5EDT,M3.2.0,M11.1.0",
        "Los Angeles" => "PST8PDT,M3.2.0,M11.1.0",
        "São Paulo" => "<-03>3",
        "London" => "GMT0BST,M3.5.0/1,M10.5.0",
        "Berlin" => "CET-1CEST,M3.5.0,M10.5.0/3",
        "Helsinki" => "EET-2EEST,M3.5.0/3,M10.5.0/4",
        "Kolkata" => "IST-5:30",
        "Tokyo" => "JST-9",
        "Sydney" => "AEST-10AEDT,M10.1.0,M4.1.0/3",
        "Lord Howe" => "<+1030>-10:30<+11>-11,M10.1.0,M4.1.0",
        "Auckland" => "NZST-12NZDT,M9.5.0,M4.1.0/3",
        rule => rule,
    }
}

/// The zone of `file` if there is one. Otherwise `name` is `UTC`, `fixed` with an offset in
/// seconds, a place, or a POSIX rule.
pub fn zone_named<'a>(name: &str, file: &'a Option<Tzif>) -> Result<TimeZone<'a>> {
    if let Some(file) = file {
        return Ok(TimeZone::tzif(file));
    }
    if name == "UTC" {
        return Ok(TimeZone::UTC);
    }
    if let Some(seconds) = name.strip_prefix("fixed ") {
        let offset = Offset::from_seconds(seconds.parse::<i32>()?)?;
        return Ok(TimeZone::fixed(offset));
    }
    Ok(TimeZone::posix(rule_of(name))?)
}
