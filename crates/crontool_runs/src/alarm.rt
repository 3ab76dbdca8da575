//! The subcommand `alarm`, which writes a line at each fire of an expression, when it comes.

use crate::run::status_of;
use clap::ArgMatches;
use cron_answers::expression::{Expression, read_as};
use cron_answers::trouble::Trouble;
use cron_printing::printer::Printer;
use cron_replies::status::Status;
use cron_scheduler::MachineClock;
use cron_tab_running::{Alarm, FireWriter, ring_at};
use cron_writer::watched::Watched;
use crontool_machine::choices::changes_of;
use crontool_machine::machine::{Surroundings, complain, open_zone, say_trouble};
use jiff::tz::TimeZone;
use std::io;

fn ring_in(
    rt: &HostRuntime,
    words: &ArgMatches<'_>,
    expression: &Expression,
    zone: TimeZone<'_>,
) -> Status {
    let alarm = Alarm {
        schedules: expression.as_slice(),
        changes: expression.changes(changes_of(words)),
        zone,
        most: words.get_one::<u64>("count").unwrap_or(u64::MAX),
    };
    let mut writer = FireWriter {
        printer: Printer {
            out: Watched::new(io::writer(rt)),
        },
    };
    let ended = ring_at(rt.alloc(), &alarm, &mut MachineClock(rt), &mut writer);
    status_of(rt, ended)
}

// Writes a line at each fire of an expression in a zone, when it comes.
fn ring(
    rt: &HostRuntime,
    words: &ArgMatches<'_>,
    expression: &Expression,
    zone: &str,
) -> Result<Status, Status> {
    let around = Surroundings::of(rt)?;
    let opened = open_zone(rt, zone, &around)?;
    Ok(ring_in(rt, words, expression, opened.time_zone()))
}

/// Carries out the subcommand `alarm`, and returns its status when it ends.
pub fn answer(rt: &HostRuntime, words: &ArgMatches<'_>) -> Status {
    let (Some(text), Some(zone)) = (words.get_str("EXPRESSION"), words.get_str("zone")) else {
        return complain(rt, "a word is missing", Status::WrongWords);
    };
    match read_as(words.get_flag("quartz"), text) {
        Ok(expression) => match ring(rt, words, &expression, zone) {
            Ok(status) | Err(status) => status,
        },
        Err(refusal) => say_trouble(rt, &Trouble::Expression(text, refusal)),
    }
}
