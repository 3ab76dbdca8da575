//! The costs of varied lines: each is another cron expression. If one text is read again and again,
//! a processor foresees each branch.

ghost use Rattle.std.specs.Prelude.{◌<◌, ◌≤◌};

use crate::rounds::least_cost;
use crate::walks::CHICAGO;
use anyhow::{Result, ensure};
use cron::Schedule;
use cron_text::{no_ordinals, read_into};
use jiff::Timestamp;
use jiff::tz::TimeZone;
use std::alloc::{AllocError, Global};

/// The number of varied lines.
pub const LINES: u32 = 100_000;

/// The start of 2018, in seconds since 1970, where the first line's search starts. The next
/// constant is the number of seconds from one line's start to the next line's start.
const FIRST_START: i64 = 1_514_764_800;

const BETWEEN_STARTS: i64 = 977;

const MONTHS: [&str; 12] = [
    "Jan", "Feb", "Mar", "Apr", "May", "Jun", "Jul", "Aug", "Sep", "Oct", "Nov", "Dec",
];

const DAYS: [&str; 7] = ["Mon", "Tue", "Wed", "Thu", "Fri", "Sat", "Sun"];

/// Pseudorandom numbers, the same in each run.
#[derive(Drop)]
struct Draw {
    state: u64,
}

impl Draw {
    /// A number below `bound`.
    fn below(&mut self, bound: u32) -> u32
        requires { 0 < bound }
        ensures { result < bound }
    {
        self.state = self
            .state
            .wrapping_mul(6_364_136_223_846_793_005)
            .wrapping_add(1_442_695_040_888_963_407);
        (self.state >> 33) as u32 % bound
    }

    /// A number from `least` to `greatest`, both included.
    fn number(&mut self, least: u32, greatest: u32) -> u32
        requires order { least ≤ greatest }
        requires small { greatest < 1000 }
        ensures least { least ≤ result }
        ensures greatest { result ≤ greatest }
    {
        least + self.below(greatest - least + 1)
    }
}

/// The numbers of a list, up to four from `least` to `greatest`, with one bit for each.
fn members_of(draw: &mut Draw, least: u32, greatest: u32) -> u64
    requires order { least ≤ greatest }
    requires small { greatest < 64 }
{
    let mut members: u64 = 0;
    for _ in 0..=draw.below(4) {
        members |= 1 << draw.number(least, greatest);
    }
    members
}

/// Appends a list of up to four numbers in ascending order, each once.
fn push_list(
    text: &mut String,
    draw: &mut Draw,
    least: u32,
    greatest: u32,
) -> Result<(), AllocError>
    requires order { least ≤ greatest }
    requires small { greatest < 64 }
{
    let members = members_of(draw, least, greatest);
    let mut separator = "";
    for member in least..=greatest {
        if members >> member & 1 == 1 {
            write!(text, "{separator}{member}")?;
            separator = ",";
        }
    }
    Ok(())
}

/// Appends a field of numbers: one number, steps, a range, a list, or a star.
fn push_field(
    text: &mut String,
    draw: &mut Draw,
    least: u32,
    greatest: u32,
) -> Result<(), AllocError>
    requires order { least ≤ greatest }
    requires room { 2 ≤ greatest }
    requires small { greatest < 64 }
{
    match draw.below(6) {
        0 => write!(text, "{}", draw.number(least, greatest)),
        1 => write!(text, "*/{}", draw.number(2, greatest.min(30))),
        2 => {
            let first = draw.number(least, greatest);
            let last = draw.number(first, greatest);
            write!(text, "{first}-{last}")
        }
        3 => push_list(text, draw, least, greatest),
        _ => text.push_str("*"),
    }
}

/// Appends a field of months: a star, a name or numbers.
fn push_months(text: &mut String, draw: &mut Draw) -> Result<(), AllocError> {
    if draw.below(3) > 0 {
        return text.push_str("*");
    }
    if draw.below(2) > 0 {
        return text.push_str(MONTHS[draw.below(12) as usize]);
    }
    push_field(text, draw, 1, 12)
}

/// Appends a field of days of the week: a star, a name or the working days.
fn push_days_of_week(text: &mut String, draw: &mut Draw) -> Result<(), AllocError> {
    if draw.below(2) > 0 {
        return text.push_str("*");
    }
    if draw.below(3) > 0 {
        return text.push_str(DAYS[draw.below(7) as usize]);
    }
    text.push_str("Mon-Fri")
}

/// The five fields of a crontab line, with a field of seconds before them. Most lines begin with
/// `0`.
fn varied_line(alloc: Global, draw: &mut Draw) -> Result<String, AllocError> {
    let mut text = String::new(alloc);
    if draw.below(10) < 8 {
        text.push_str("0")?;
    } else {
        push_field(&mut text, draw, 0, 59)?;
    }
    text.push_str(" ")?;
    let mut dates = String::new(alloc);
    if draw.below(3) > 0 {
        dates.push_str("*")?;
    } else {
        push_field(&mut dates, draw, 1, 28)?;
    }
    dates.push_str(" ")?;
    push_months(&mut dates, draw)?;
    dates.push_str(" ")?;
    push_days_of_week(&mut dates, draw)?;
    push_field(&mut text, draw, 0, 59)?;
    text.push_str(" ")?;
    push_field(&mut text, draw, 0, 23)?;
    text.push_str(" ")?;
    text.push_str(dates.as_str())?;
    Ok(text)
}

/// The varied lines, which are cron expressions, the same in each run.
pub fn varied_lines(alloc: Global) -> Result<Vec<String>, AllocError> {
    let mut draw = Draw { state: 20_221_106 };
    let mut lines = Vec::with_capacity(alloc, LINES as usize)?;
    for _ in 0..LINES {
        lines.push(varied_line(alloc, &mut draw)?)?;
    }
    Ok(lines)
}

/// Reads the bytes of each line into sets, as a call from C does, and returns the number of lines
/// that are read.
fn read_all(lines: &[String]) -> u32 {
    let mut read: u32 = 0;
    let mut fields = no_ordinals();
    for line in lines {
        if str::from_utf8(line.as_bytes()).is_ok_and(|text| read_into(text, &mut fields)) {
            read = read.wrapping_add(1);
        }
    }
    read
}

/// Makes a schedule of each line, which keeps a copy of the line, and returns the number of
/// schedules.
fn keep_all(alloc: Global, lines: &[String]) -> u32 {
    let mut read: u32 = 0;
    for line in lines {
        if Schedule::from_str(alloc, line.as_str()).is_ok() {
            read = read.wrapping_add(1);
        }
    }
    read
}

/// Returns true if the schedule has an item after `second`, counted from 1970 on.
fn has_item(schedule: &Schedule, second: i64, zone: &TimeZone<'_>) -> bool {
    Timestamp::from_second(second).is_ok_and(|start| schedule.after(start, zone).next().is_some())
}

/// Finds the first item of each schedule after an instant of its own, and returns the number of
/// schedules that have one.
fn find_all(schedules: &[Schedule], zone: &TimeZone<'_>) -> u32 {
    let mut found: u32 = 0;
    let mut second = FIRST_START;
    for schedule in schedules {
        if has_item(schedule, second, zone) {
            found = found.wrapping_add(1);
        }
        second = second.wrapping_add(BETWEEN_STARTS);
    }
    found
}

/// The schedules of the lines.
fn schedules_of(alloc: Global, lines: &[String]) -> Result<Vec<Schedule>> {
    let mut schedules = Vec::with_capacity(alloc, lines.len())?;
    for line in lines {
        schedules.push(Schedule::from_str(alloc, line.as_str())?)?;
    }
    Ok(schedules)
}

/// Prints the least cost of a line in 15 rounds: reading it into sets, and keeping it in a
/// schedule.
fn time_reads(rt: &HostRuntime, lines: &[String]) -> Result<()> {
    let mut is_whole = true;
    let read = least_cost(rt, 15, LINES, || is_whole &= read_all(lines) == LINES)?;
    println!(rt; "lines | read | {read}")?;
    let kept = least_cost(
        rt,
        15,
        LINES,
        || is_whole &= keep_all(rt.alloc(), lines) == LINES,
    )?;
    println!(rt; "lines | kept | {kept}")?;
    ensure!(is_whole, "lines: one is refused");
    Ok(())
}

/// Prints the least cost of finding a first item in 15 rounds.
fn time_firsts(
    rt: &HostRuntime,
    name: &str,
    schedules: &[Schedule],
    zone: &TimeZone<'_>,
) -> Result<()> {
    let cost = least_cost(rt, 15, LINES, || find_all(schedules, zone))?;
    println!(rt; "lines | first {name} | {cost}")?;
    Ok(())
}

/// Prints the costs of reading a line, of keeping it, and of finding its first item.
pub fn run(rt: &HostRuntime) -> Result<()> {
    let chicago = TimeZone::posix(CHICAGO)?;
    let lines = varied_lines(rt.alloc())?;
    time_reads(rt, lines.as_slice())?;
    let schedules = schedules_of(rt.alloc(), lines.as_slice())?;
    time_firsts(rt, "UTC", schedules.as_slice(), &TimeZone::UTC)?;
    time_firsts(rt, "Chicago", schedules.as_slice(), &chicago)
}

/// Prints the varied lines.
pub fn print(rt: &HostRuntime) -> Result<()> {
    for line in varied_lines(rt.alloc())?.as_slice() {
        println!(rt; "{line}")?;
    }
    Ok(())
}
