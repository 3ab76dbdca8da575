//! The subcommand `calendar`, which counts the fires of each day.

ghost use Rattle.std.specs.Prelude.{◌<◌, ◌≤◌};
ghost use Rattle.cron_answers.specs.Periods.{IsPeriod};

use crate::list::{tabs_of, tell_refused};
use crate::spans::{gather, say_missing};
use clap::ArgMatches;
use cron_answers::expression::{Expression, read_as};
use cron_answers::period::{Period, period_of};
use cron_answers::trouble::Trouble;
use cron_calendar::pages::{Shown, html_month, html_page, json_rows, text_page};
use cron_calendar::plans::Plan;
use cron_crontab::Expression as TabExpression;
use cron_fires::ClockChanges;
use cron_plans::plan::Plan as Rules;
use cron_replies::status::Status;
use cron_tab_agenda::TabFile;
use cron_tab_lines::{Crontab, Entry, Line, Lines, NamedZone, zone_below};
use cron_tab_warnings::{follows_clock, text_of};
use crontool_machine::choices::changes_of;
use crontool_machine::looks::wants_colour;
use crontool_machine::machine::{
    Surroundings, complain, controls_of, no_memory, open_zone, read_all, say_trouble, write_page,
};
use crontool_machine::plans::Planning;
use crontool_machine::zones::TabZones;
use jiff::tz::TimeZone;
use std::alloc::{AllocError, Global};
use std::env;

/// An expression with its name in the calendar: its text, or the line of its entry.
#[derive(Drop)]
struct Named<'a> {
    name: &'a [u8],
    expression: Expression,
}

// Adds the expressions of the command line, of Quartz if `quartz`. If a text is no expression, the
// reason is written, and `Err` has the status of the subcommand.
fn add_words<'a>(
    rt: &HostRuntime,
    named: &mut Vec<Named<'a>>,
    quartz: bool,
    texts: &[&'a str],
) -> Result<(), Status> {
    for text in texts {
        let name = text.as_bytes();
        match read_as(quartz, *text) {
            Ok(expression) => match named.push(Named { name, expression }) {
                Ok(()) => {}
                Err(_) => return Err(no_memory(rt)),
            },
            Err(refusal) => return Err(say_trouble(rt, &Trouble::Expression(*text, refusal))),
        }
    }
    Ok(())
}

/// A line without its line feed.
pub(crate) fn line_name(bytes: &[u8]) -> &[u8] {
    match bytes {
        [name @ .., b'\n'] => name,
        name => name,
    }
}

/// The expression of an entry with its own rule at clock changes. `line` is the text of its line.
pub(crate) fn expression_of(entry: &Entry<'_>, line: &str) -> Expression {
    match &entry.expression {
        TabExpression::Reboot => Expression::Reboot,
        TabExpression::Fires(schedules) => {
            let changes = if follows_clock(line) {
                ClockChanges::AsShown
            } else {
                ClockChanges::Once
            };
            Expression::Crontab(*schedules, changes)
        }
    }
}

// Adds the entries of a crontab, except those in a zone that a `CRON_TZ` line names. Returns true
// if there are such entries. Entries after a `CRON_TZ` that names no zone are left out too.
fn add_entries<'a>(
    named: &mut Vec<Named<'a>>,
    file: &'a [u8],
    names: &[NamedZone<'_>],
) -> Result<bool, AllocError> {
    let mut here = Some(0);
    let mut left_out = false;
    for line in Lines::of(Crontab::User, file) {
        match (here, &line.read) {
            (Some(0), Ok(Line::Entry(entry))) => named.push(Named {
                name: line_name(line.bytes),
                expression: expression_of(entry, text_of(line.bytes)),
            })?,
            (Some(_), Ok(Line::Entry(_))) => left_out = true,
            _ => {}
        }
        here = zone_below(names, here, &line);
    }
    Ok(left_out)
}

// The expressions in the form that a calendar takes, each by the plan `rules`. The rule at clock
// changes is `chosen`, or each expression's own if that is `None`.
fn plans_of<'a>(
    alloc: Global,
    named: &'a [Named<'a>],
    rules: Option<Rules<'a>>,
    chosen: Option<ClockChanges>,
) -> Result<Vec<Plan<'a>>, AllocError> {
    let mut plans = Vec::new(alloc);
    for one in named {
        plans.push(Plan {
            name: one.name,
            schedules: one.expression.as_slice(),
            plan: rules,
            once: matches!(one.expression.changes(chosen), ClockChanges::Once),
        })?;
    }
    Ok(plans)
}

// The width of the terminal: the value of COLUMNS, or 80.
fn columns(rt: &HostRuntime) -> u64 {
    match env::var(rt, "COLUMNS") {
        Ok(text) => text.as_str().parse::<u64>().unwrap_or(80),
        Err(_) => 80,
    }
}

// The number of months of 38 columns that fit side by side, from 1 to 12. The last needs only 35.
fn months_across(width: u64) -> u32
    ensures { (0 < result) × (result ≤ 12) }
{
    let across = width.saturating_add(3) / 38;
    if across < 1 {
        1
    } else if across > 12 {
        12
    } else {
        across as u32
    }
}

// Makes the page of HTML of a year or of a month.
fn html_of<'a>(
    rt: &HostRuntime,
    period: Period,
    plans: &'a [Plan<'a>],
    zone: &TimeZone<'_>,
    zone_name: &'a str,
) -> Result<Vec<u8>, AllocError>
    requires { IsPeriod period }
{
    let name = zone_name.as_bytes();
    if period.end - period.first == 1 {
        html_month(rt.alloc(), plans, period.first, zone, name)
    } else {
        html_page(rt.alloc(), plans, period.year, zone, name)
    }
}

// Makes the calendar of `plans`, the expressions, as HTML, JSON or text, and writes it.
fn show<'a>(
    rt: &HostRuntime,
    words: &ArgMatches<'_>,
    period: Period,
    plans: &'a [Plan<'a>],
    zone: &TimeZone<'_>,
    zone_name: &'a str,
) -> Status
    requires { IsPeriod period }
{
    let colour = match wants_colour(rt, words) {
        Ok(colour) => colour,
        Err(status) => return status,
    };
    let page = if words.get_flag("html") {
        html_of(rt, period, plans, zone, zone_name)
    } else if words.get_flag("json") {
        json_rows(rt.alloc(), plans, period.first, period.end, zone)
    } else {
        let width = words.get_one::<u64>("width").unwrap_or(columns(rt));
        let shown = Shown {
            first: period.first,
            end: period.end,
            across: months_across(width),
            colour,
            controls: controls_of(&rt.stdout()),
        };
        text_page(rt.alloc(), plans, shown, zone)
    };
    match page {
        Ok(page) => write_page(rt, page.as_slice()),
        Err(_) => no_memory(rt),
    }
}

// Writes the calendar of the expressions' fires in the zone `name`, by the plan of the words.
fn show_named<'a>(
    rt: &HostRuntime,
    words: &ArgMatches<'_>,
    period: Period,
    named: &'a [Named<'a>],
    name: &'a str,
    around: &Surroundings,
) -> Result<Status, Status>
    requires { IsPeriod period }
{
    let planning = Planning::of(rt, words, "last")?;
    let opened = open_zone(rt, name, around)?;
    match plans_of(rt.alloc(), named, planning.plan(), changes_of(words)) {
        Ok(plans) => Ok(show(
            rt,
            words,
            period,
            plans.as_slice(),
            &opened.time_zone(),
            name,
        )),
        Err(_) => Err(no_memory(rt)),
    }
}

/// Refuses a command line without an expression and without a crontab: that is written, and `Err`
/// has the status of the subcommand.
pub(crate) fn demand_entries(
    rt: &HostRuntime,
    texts: &[&str],
    files: &[&str],
) -> Result<(), Status> {
    if !texts.is_empty() || !files.is_empty() {
        return Ok(());
    }
    Err(complain(rt, "an EXPRESSION or --file is wanted", Status::WrongWords))
}

// Adds the entries of crontabs to `named`, and reports which lines are refused and whether entries
// are left out. The status is `No` if some are.
fn read_tabs<'a>(
    rt: &HostRuntime,
    files: &[TabFile<'a>],
    around: &'a Surroundings,
    named: &mut Vec<Named<'a>>,
) -> Result<Status, Status> {
    let tabs = TabZones::of(rt, files, around)?;
    let Ok(names) = tabs.names(rt.alloc()) else {
        return Err(no_memory(rt));
    };
    let (mut told, mut left_out) = (Status::Done, false);
    for file in files {
        let Ok(left) = add_entries(named, file.bytes, names.as_slice()) else {
            return Err(no_memory(rt));
        };
        told = told.worse(tell_refused(rt, file, names.as_slice()));
        left_out = left_out || left;
    }
    if left_out {
        let why = "entries below CRON_TZ are left out of a calendar";
        return Ok(told.worse(complain(rt, why, Status::No)));
    }
    Ok(told)
}

// Reads the expressions and the crontabs that the words name, and writes the calendar of their fires.
fn show_words(
    rt: &HostRuntime,
    words: &ArgMatches<'_>,
    period: Period,
    zone: &str,
) -> Result<Status, Status>
    requires { IsPeriod period }
{
    let names = gather(rt, words, &["file"])?;
    let names = names.as_slice();
    demand_entries(rt, words.get_strs("EXPRESSION").unwrap_or(&[]), names)?;
    let read = read_all(rt, names)?;
    let Ok(files) = tabs_of(rt.alloc(), Crontab::User, names, read.as_slice()) else {
        return Err(no_memory(rt));
    };
    let around = Surroundings::of(rt)?;
    let mut named = Vec::new(rt.alloc());
    if let Some(texts) = words.get_strs("EXPRESSION") {
        add_words(rt, &mut named, words.get_flag("quartz"), texts)?;
    }
    let told = read_tabs(rt, files.as_slice(), &around, &mut named)?;
    let shown = show_named(rt, words, period, named.as_slice(), zone, &around)?;
    Ok(told.worse(shown))
}

/// Carries out the subcommand `calendar`, and returns its status.
pub fn answer(rt: &HostRuntime, words: &ArgMatches<'_>) -> Status {
    let Some(zone) = words.get_str("zone") else {
        return say_missing(rt);
    };
    let period = match words.get_str("PERIOD") {
        Some(text) => period_of(text),
        None => None,
    };
    let Some(period) = period else {
        return complain(
            rt,
            "PERIOD is a year from 1970 to 2100, or a month as 2024-03",
            Status::WrongWords,
        );
    };
    match show_words(rt, words, period, zone) {
        Ok(status) | Err(status) => status,
    }
}
