//! `crontool` answers questions about cron expressions and crontabs at a shell. Subcommands on
//! crontabs are in `crontool_tabs`, and those that wait for fires are in `crontool_runs`. The
//! others call `cron_answers`.
#![tactic(auto)]

mod done;
mod due;
mod events;
mod explain;
mod late;
mod oncalendar;
mod overlap;
mod rota;
mod windows;

use clap::{ArgMatches, Error};
use cron_answers::answer::{Request, answer};
use cron_replies::status::Status;
use cron_writer::watched::Watched;
use cron_zones::machine::MachineFiles;
use crontool_machine::looks::{format_of, times_of};
use crontool_machine::machine::{Surroundings, complain};
use crontool_machine::plans::Planning;
use crontool_machine::tips::tell_tip;
use crontool_runs::{alarm, run};
use crontool_tabs::{
    calendar, check, collisions, compare, explain as explain_tabs, ics, list, missed,
};
use crontool_units::systemd;
use crontool_words::commands::{command, request_of, texts_of};
use crontool_words::completions;
use std::process::ExitCode;
use std::{env, io};

// The arguments of the program, after its name. `Err` if one isn't UTF-8, or memory runs out.
fn arguments_of(rt: &HostRuntime) -> io::Result<Vec<String>> {
    Ok(env::args(rt)?.collect(rt.alloc())?)
}

// Prints the help, or what is wrong with the words. Returns the exit status.
fn say(rt: &HostRuntime, error: &Error) -> u8 {
    if error.print(rt).is_err() {
        return end(rt, Status::WriteFailed);
    }
    if error.use_stderr() {
        Status::WrongWords.code()
    } else {
        Status::Done.code()
    }
}

// Writes to standard error why nothing can be done. Returns the exit status.
fn give_up(rt: &HostRuntime, why: &str, status: Status) -> u8 {
    complain(rt, why, status).code()
}

// Answers a request of `next` or `between` with the machine's clock, zones and streams.
fn answer_timed(rt: &HostRuntime, request: &Request<'_>, around: &Surroundings) -> Status {
    let mut out = Watched::new(io::writer(rt));
    let mut complaints = Watched::new(rt.stderr());
    answer(
        rt.alloc(),
        request,
        around.now,
        &around.places(),
        &mut MachineFiles(rt),
        &mut out,
        &mut complaints,
    )
}

// Answers a request of `next` or `between`, with the times and the plan of the words. `Err` has the
// status of the subcommand if the clock, TZ, TZDIR or a file can't be read, or if a word is wrong.
fn answer_request<'a>(
    rt: &HostRuntime,
    name: &str,
    words: &ArgMatches<'a>,
    request: Request<'a>,
) -> Result<Status, Status> {
    let planning = Planning::of(rt, words, "last")?;
    let around = Surroundings::of(rt)?;
    let times = if name == "next" {
        times_of(rt, words, around.now, false)
    } else {
        Ok(format_of(words))
    };
    match times {
        Ok(times) => {
            let plan = planning.plan();
            let planned = Request {
                times,
                plan,
                ..request
            };
            Ok(answer_timed(rt, &planned, &around))
        }
        Err(status) => Err(status),
    }
}

// Carries out a subcommand and returns its status.
fn answer_words(rt: &HostRuntime, name: &str, words: &ArgMatches<'_>) -> Status {
    match name {
        "list" => list::answer(rt, words),
        "late" => late::answer(rt, words),
        "missed" => missed::answer(rt, words),
        "due" => due::answer(rt, words),
        "check" => check::answer(rt, words),
        "compare" => compare::answer(rt, words),
        "overlap" => overlap::answer(rt, words),
        "collisions" => collisions::answer(rt, words),
        "oncalendar" => oncalendar::answer(rt, words),
        "systemd" => systemd::answer(rt, words),
        "explain" if words.get_strs("file").is_some() => explain_tabs::answer(rt, words),
        "explain" => explain::answer(rt, words),
        "windows" => windows::list(rt, words),
        "inside" => windows::say(rt, words),
        "rota" => rota::answer(rt, words),
        "calendar" => calendar::answer(rt, words),
        "ics" => ics::answer(rt, words),
        "completions" => completions::answer(rt, words),
        _ => match request_of(name, words) {
            Ok(request) => match answer_request(rt, name, words, request) {
                Ok(status) | Err(status) => status,
            },
            Err(why) => complain(rt, why, Status::WrongWords),
        },
    }
}

// The name under which the program was called, without its folder.
fn program_of<'a>(arguments: &'a [String]) -> &'a str {
    let Some(first) = arguments.first() else {
        return "crontool";
    };
    match first.as_str().rsplit_once('/') {
        Some((_, name)) => name,
        None => first.as_str(),
    }
}

// Returns the exit status. If a write failed, that is written to standard error, as far as
// possible.
fn end(rt: &HostRuntime, status: Status) -> u8 {
    if status == Status::WriteFailed {
        let _said = eprintln!(rt; "error: a write failed");
    }
    status.code()
}

// Carries out a subcommand and returns its exit status. A name that is nearly right is followed by
// a tip. `alarm`, `done` and `run` report failed writes themselves.
fn answer_subcommand(rt: &HostRuntime, name: &str, words: &ArgMatches<'_>) -> u8 {
    let status = match name {
        "alarm" => alarm::answer(rt, words),
        "done" => done::answer(rt, words),
        "run" => run::answer(rt, words),
        _ => {
            let status = answer_words(rt, name, words);
            return end(rt, tell_tip(rt, name, words, status));
        }
    };
    tell_tip(rt, name, words, status).code()
}

fn answer_arguments(rt: &HostRuntime, arguments: &[String]) -> u8 {
    let Ok(texts) = texts_of(rt.alloc(), program_of(arguments)) else {
        return give_up(rt, "out of memory", Status::WrongWords);
    };
    let command = match command(rt.alloc(), texts.as_slice(), arguments) {
        Ok(command) => command,
        Err(_) => return give_up(rt, "out of memory", Status::WrongWords),
    };
    match command.try_get_matches_from(arguments) {
        Ok(matches) => match matches.subcommand() {
            Some((name, words)) => answer_subcommand(rt, name, words),
            None => give_up(rt, "a subcommand is missing", Status::WrongWords),
        },
        Err(error) => say(rt, &error),
    }
}

fn main(rt: HostRuntime) -> ExitCode {
    let rt = &rt;
    ExitCode::from(match arguments_of(rt) {
        Ok(arguments) => answer_arguments(rt, arguments.as_slice()),
        Err(_) => give_up(rt, "an argument is not UTF-8", Status::WrongWords),
    })
}
