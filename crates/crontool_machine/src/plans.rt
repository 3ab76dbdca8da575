//! Plans, as the words of a subcommand ask for them: `--every`, `--anchor`, `--first`, `--last`,
//! `--holidays`, `--move` and `--except`. In `late`, `--last` is called `--last-day`.

use crate::choices::form_of;
use crate::machine::{complain, no_memory, read_file, say_trouble, say_unread};
use clap::ArgMatches;
use cron_answers::expression::{Expression, read_as};
use cron_answers::trouble::Trouble;
use cron_days::day::RuleError;
use cron_days::rule::Rule;
use cron_holidays::{HolidayFault, Refused, read_holidays};
use cron_plan_words::options::{Options, Step};
use cron_plan_words::rules::rules_of;
use cron_plan_words::steps::step_of;
use cron_plan_words::telling::plan_lines;
use cron_plans::plan::Plan;
use cron_replies::status::Status;
use cron_units::way::Way;
use jiff::civil::Date;

/// A plan as the words of a subcommand ask for it, or that they ask for none.
#[derive(Drop)]
pub struct Planning {
    days: Vec<Rule>,
    without: Option<Expression>,
    moves: Option<Way>,
    is_empty: bool,
    lines: String,
}

impl Planning {
    /// Reads the plan that the words ask for, and its file of holidays. `last` is the name of the
    /// option with the last day. If a word or the file is wrong, that is written, and `Err` has the
    /// status of the subcommand.
    pub fn of(rt: &HostRuntime, words: &ArgMatches<'_>, last: &str) -> Result<Planning, Status> {
        let holidays = holidays_of(rt, words)?;
        let without = except_of(rt, words)?;
        let options = Options {
            every: every_of(rt, words)?,
            first: date_of(rt, words, "first")?,
            last: date_of(rt, words, last)?,
            holidays: holidays.as_ref().map(|dates| dates.as_slice()),
            moves: moves_of(rt, words)?,
            except: without.is_some(),
        };
        if options.moves.is_some() && !has_days(&options) {
            return Err(say_no_days(rt, last));
        }
        let days = match rules_of(rt.alloc(), &options) {
            Ok(days) => days,
            Err(error) => return Err(say_refused(rt, &error)),
        };
        let Ok(lines) = plan_lines(rt.alloc(), form_of(words), &options) else {
            return Err(no_memory(rt));
        };
        let (moves, is_empty) = (options.moves, options.is_empty());
        Ok(Planning {
            days,
            without,
            moves,
            is_empty,
            lines,
        })
    }

    /// The plan, or `None` if the words ask for none.
    pub fn plan(&self) -> Option<Plan<'_>> {
        if self.is_empty {
            return None;
        }
        Some(Plan {
            without: match &self.without {
                Some(expression) => expression.as_slice(),
                None => &[],
            },
            days: self.days.as_slice(),
            moves: self.moves,
        })
    }

    /// The lines that tell of the plan.
    pub fn lines(&self) -> &str {
        self.lines.as_str()
    }
}

// Whether options allow some days and others not.
fn has_days(options: &Options<'_>) -> bool {
    options.every.is_some()
        || options.first.is_some()
        || options.last.is_some()
        || options.holidays.is_some()
}

// Writes that `--move` stands alone. `last` is the name of the option with the last day. Returns the
// status of the subcommand.
fn say_no_days(rt: &HostRuntime, last: &str) -> Status {
    match eprintln!(rt; "error: --move wants --every, --first, --{last} or --holidays") {
        Ok(()) => Status::WrongWords,
        Err(_) => Status::WriteFailed,
    }
}

// Writes why a rule can't be made. Returns the status of the subcommand.
fn say_refused(rt: &HostRuntime, error: &RuleError) -> Status {
    let said = match error {
        RuleError::OutOfMemory => return no_memory(rt),
        RuleError::NoCount(_) => eprintln!(rt; "error: --every: {error}"),
        RuleError::OutOfRange(_) | RuleError::Turned { .. } => eprintln!(rt; "error: {error}"),
    };
    match said {
        Ok(()) => Status::WrongWords,
        Err(_) => Status::WriteFailed,
    }
}

// Writes that the value of an option is wrong. Returns the status of the subcommand.
fn say_wrong(rt: &HostRuntime, option: &str, value: &str, wanted: &str) -> Status {
    match eprintln!(rt; "error: --{option} '{value}' is no {wanted}") {
        Ok(()) => Status::WrongWords,
        Err(_) => Status::WriteFailed,
    }
}

// The date of an option, if it is there.
fn date_of(rt: &HostRuntime, words: &ArgMatches<'_>, option: &str) -> Result<Option<Date>, Status> {
    let Some(text) = words.get_str(option) else {
        return Ok(None);
    };
    match text.parse::<Date>() {
        Ok(date) => Ok(Some(date)),
        Err(_) => Err(say_wrong(rt, option, text, "date, as 2024-02-29")),
    }
}

// The days, weeks or months of `--every`, if it is there.
fn every_of(rt: &HostRuntime, words: &ArgMatches<'_>) -> Result<Option<Step>, Status> {
    let (Some(text), Some(anchor)) = (words.get_str("every"), date_of(rt, words, "anchor")?) else {
        return Ok(None);
    };
    match step_of(text) {
        Some((count, period)) => Ok(Some(Step {
            count,
            period,
            anchor,
        })),
        None => Err(say_wrong(
            rt,
            "every",
            text,
            "number of days, weeks or months, as 3d, 2w or 6mo",
        )),
    }
}

// The direction of `--move`, if it is there.
fn moves_of(rt: &HostRuntime, words: &ArgMatches<'_>) -> Result<Option<Way>, Status> {
    match words.get_str("move") {
        None => Ok(None),
        Some("after") => Ok(Some(Way::Ahead)),
        Some("before") => Ok(Some(Way::Back)),
        Some(_) => Err(complain(rt, "--move is before or after", Status::WrongWords)),
    }
}

// The dates of the file of `--holidays`, if it is there.
fn holidays_of(rt: &HostRuntime, words: &ArgMatches<'_>) -> Result<Option<Vec<Date>>, Status> {
    let Some(path) = words.get_str("holidays") else {
        return Ok(None);
    };
    let bytes = match read_file(rt, path) {
        Ok(bytes) => bytes,
        Err(error) => return Err(say_unread(rt, path, &error)),
    };
    match read_holidays(rt.alloc(), bytes.as_slice()) {
        Ok(dates) => Ok(Some(dates)),
        Err(fault) => Err(say_fault(rt, path, &fault)),
    }
}

// Writes which line of a file of holidays is refused. Returns the status of the subcommand.
fn say_fault(rt: &HostRuntime, path: &str, fault: &HolidayFault) -> Status {
    let HolidayFault::Refused(Refused { line, reason }) = fault else {
        return no_memory(rt);
    };
    match eprintln!(rt; "error: {path}:{line}: {reason}") {
        Ok(()) => Status::Unreadable,
        Err(_) => Status::WriteFailed,
    }
}

// The expression of `--except`, if it is there, of Quartz as EXPRESSION is.
fn except_of(rt: &HostRuntime, words: &ArgMatches<'_>) -> Result<Option<Expression>, Status> {
    let Some(text) = words.get_str("except") else {
        return Ok(None);
    };
    match read_as(words.get_flag("quartz"), text) {
        Ok(expression) => Ok(Some(expression)),
        Err(refusal) => Err(say_trouble(rt, &Trouble::Expression(text, refusal))),
    }
}
