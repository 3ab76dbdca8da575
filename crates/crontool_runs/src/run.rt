//! The subcommand `run`, which runs the entries of crontabs when they fire.

use crate::follow::{run_counted, run_following};
use crate::state::State;
use clap::ArgMatches;
use cron_agenda_scheduler::{AgendaStop, Lateness};
use cron_replies::status::Status;
use cron_tab_lines::Crontab;
use cron_tab_running::{Failure, RunOrders};
use cron_tab_tasks::{Form, Orders, Ways};
use crontool_machine::choices::clock_of;
use crontool_machine::machine::{complain, no_memory, say_unread};
use std::fs;

fn lateness_of(text: &str) -> Option<Lateness> {
    match text {
        "each" => Some(Lateness::Each),
        "latest" => Some(Lateness::Latest),
        _ => {
            let seconds = text.strip_prefix("within=")?;
            Some(Lateness::Within(seconds.parse::<u64>().ok()?))
        }
    }
}

// The folder of the lock files, or `None` if an entry may run while its last command does.
fn locks_of<'a>(words: &ArgMatches<'a>) -> Option<&'a [u8]> {
    if !words.get_flag("alone") {
        return None;
    }
    words.get_str("state").map(|folder| folder.as_bytes())
}

// How an entry's text is written: as a command, or as a line for a shell. `Err` says what is wrong
// with the options.
fn form_of<'a>(words: &ArgMatches<'a>) -> Result<Form<'a>, &'static str> {
    if !words.get_flag("shell") {
        return Ok(Form::Command);
    }
    let timeout = words.get_one::<u64>("timeout");
    if timeout == Some(0) {
        return Err("--timeout is one second or more");
    }
    Ok(Form::Shell(Ways {
        timeout,
        locks: locks_of(words),
        logs: words.get_str("log").map(|folder| folder.as_bytes()),
    }))
}

// Which entries are run, and how their text is written. `Err` says what is wrong with the options.
fn tasks_of<'a>(words: &ArgMatches<'a>) -> Result<Orders<'a>, &'static str> {
    let is_shell = words.get_flag("shell");
    let is_system = words.get_flag("system");
    let user = words.get_str("user");
    if is_shell && is_system && user.is_none() {
        return Err("--shell runs the entries of one user: --user NAME is missing");
    }
    let form = form_of(words)?;
    Ok(Orders {
        kind: if is_system {
            Crontab::System
        } else {
            Crontab::User
        },
        form,
        user: user.map(|name| name.as_bytes()),
        names: &[],
    })
}

fn orders_of<'a>(words: &ArgMatches<'a>) -> Result<RunOrders<'a>, &'static str> {
    let Some(lateness) = lateness_of(words.get_str("late").unwrap_or("latest")) else {
        return Err("--late is each, latest or within=SECONDS");
    };
    Ok(RunOrders {
        tasks: tasks_of(words)?,
        clock: clock_of(words),
        lateness,
        reboot: words.get_flag("reboot"),
        most: words.get_one::<u64>("count").unwrap_or(u64::MAX),
        ends: true,
    })
}

/// The status of `run` or `alarm`. If the run ended early, the reason is written.
pub(crate) fn status_of<E: Drop>(rt: &HostRuntime, ended: Result<(), Failure<E>>) -> Status {
    match ended {
        Ok(()) => Status::Done,
        Err(Failure::OutOfMemory) => no_memory(rt),
        Err(Failure::NoZone(_)) => complain(rt, "the zone isn't lent", Status::Unreadable),
        Err(Failure::NoIds) => complain(rt, "there are too many entries", Status::Unreadable),
        Err(Failure::Stopped(AgendaStop::Clock(_))) => {
            complain(rt, "the clock can't be read", Status::Unreadable)
        }
        Err(Failure::Stopped(AgendaStop::Zone(_))) => {
            complain(rt, "the zone isn't lent", Status::Unreadable)
        }
        Err(Failure::Untold | Failure::Stopped(AgendaStop::Job(_))) => {
            complain(rt, "a write failed", Status::WriteFailed)
        }
    }
}

// Checks that the folder of `--log` exists, if one is given. If not, the reason is written, and
// `Err` has the status of the subcommand.
fn look_at_log(rt: &HostRuntime, words: &ArgMatches<'_>) -> Result<(), Status> {
    let Some(folder) = words.get_str("log") else {
        return Ok(());
    };
    let Ok(path) = format!(in rt.alloc(); "{folder}/.") else {
        return Err(no_memory(rt));
    };
    match fs::metadata(rt, path.as_str()) {
        Ok(_) => Ok(()),
        Err(error) => Err(say_unread(rt, folder, &error)),
    }
}

// Runs the entries of files. With `--count` the files are read once; with `--state` the runs are
// noted in that folder.
fn run_from(
    rt: &HostRuntime,
    words: &ArgMatches<'_>,
    orders: RunOrders<'_>,
    names: &[&str],
    zone: &str,
) -> Result<Status, Status> {
    look_at_log(rt, words)?;
    if orders.most != u64::MAX {
        return run_counted(rt, &orders, names, zone);
    }
    let Some(folder) = words.get_str("state") else {
        return run_following(rt, &orders, None, names, zone);
    };
    let state = State::open(rt, folder)?;
    run_following(rt, &orders, Some(&state), names, zone)
}

/// Carries out the subcommand `run`, and returns its status when it ends.
pub fn answer(rt: &HostRuntime, words: &ArgMatches<'_>) -> Status {
    let orders = match orders_of(words) {
        Ok(orders) => orders,
        Err(why) => return complain(rt, why, Status::WrongWords),
    };
    let (Some(names), Some(zone)) = (words.get_strs("FILE"), words.get_str("zone")) else {
        return complain(rt, "a word is missing", Status::WrongWords);
    };
    match run_from(rt, words, orders, names, zone) {
        Ok(status) | Err(status) => status,
    }
}
