//! How the times of fires are written: by a format, as a terminal shows them, or plain.

use crate::machine::{complain, no_memory, say_trouble};
use clap::ArgMatches;
use cron_answers::trouble::Trouble;
use cron_looks::{Look, Times, is_out_of_memory, try_format};
use cron_replies::status::Status;
use jiff::Timestamp;
use std::env;
use std::io::IsTerminal;

/// Where rows are written for a reader, and whether in colour.
#[derive(Clone, Copy, PartialEq, Eq)]
enum Rows {
    Plain,
    Shown,
    Coloured,
}

// Whether a terminal may have colours: NO_COLOR isn't set, or is empty.
fn may_be_coloured(rt: &HostRuntime) -> bool {
    match env::var(rt, "NO_COLOR") {
        Ok(text) => text.is_empty(),
        Err(_) => true,
    }
}

/// Whether standard output gets colours, as `--color` says: always, never, or else if it is a
/// terminal without NO_COLOR. If `--color` is something else, that is written, and `Err` has the
/// status of the subcommand.
pub fn wants_colour(rt: &HostRuntime, words: &ArgMatches<'_>) -> Result<bool, Status> {
    match words.get_str("color").unwrap_or("auto") {
        "always" => Ok(true),
        "never" => Ok(false),
        "auto" => Ok(rt.stdout().is_terminal() && may_be_coloured(rt)),
        _ => Err(complain(rt, "--color is auto, always or never", Status::WrongWords)),
    }
}

// How rows of text are written: for a reader on a terminal, and where `--color` is always.
fn rows_of(rt: &HostRuntime, words: &ArgMatches<'_>) -> Result<Rows, Status> {
    let colour = wants_colour(rt, words)?;
    if words.get_flag("json") {
        return Ok(Rows::Plain);
    }
    if colour {
        return Ok(Rows::Coloured);
    }
    if rt.stdout().is_terminal() {
        return Ok(Rows::Shown);
    }
    Ok(Rows::Plain)
}

/// How the times of fires are written: by `--time-format`, or plain.
pub fn format_of<'a>(words: &ArgMatches<'a>) -> Times<'a> {
    match words.get_str("time-format") {
        Some(format) => Times::Format(format),
        None => Times::Plain,
    }
}

/// How the times of fires are written: by `--time-format`, as a terminal shows them with waits from
/// the instant `from`, or plain. Waits are `wide` where another cell follows. If a word is wrong,
/// that is written, and `Err` has the status of the subcommand.
pub fn times_of<'a>(
    rt: &HostRuntime,
    words: &ArgMatches<'a>,
    from: Timestamp,
    wide: bool,
) -> Result<Times<'a>, Status> {
    let rows = rows_of(rt, words)?;
    if rows == Rows::Plain || words.get_str("time-format").is_some() {
        return Ok(format_of(words));
    }
    let colour = rows == Rows::Coloured;
    Ok(Times::Shown(Look { from, colour, wide }))
}

/// Tries the format of times, if they have one. If `strftime` refuses it, that is written, and `Err`
/// has the status of the subcommand.
pub fn try_times(rt: &HostRuntime, times: &Times<'_>) -> Result<(), Status> {
    let Times::Format(format) = times else {
        return Ok(());
    };
    let Err(error) = try_format(rt.alloc(), *format) else {
        return Ok(());
    };
    if is_out_of_memory(&error) {
        return Err(no_memory(rt));
    }
    Err(say_trouble(rt, &Trouble::Format(*format)))
}
