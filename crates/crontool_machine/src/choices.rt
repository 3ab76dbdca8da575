//! What options of several subcommands choose.

use clap::ArgMatches;
use cron_fires::ClockChanges;
use cron_replies::form::Form;
use cron_tab_agenda::Clock;
use cron_tab_lines::Crontab;

/// The rule at clock changes that `--once` or `--as-shown` chooses, or `None` without either.
pub fn changes_of(matches: &ArgMatches<'_>) -> Option<ClockChanges> {
    if matches.get_flag("once") {
        return Some(ClockChanges::Once);
    }
    if matches.get_flag("as-shown") {
        return Some(ClockChanges::AsShown);
    }
    None
}

/// How fires are written: as JSON with `--json`, else as text.
pub fn form_of(matches: &ArgMatches<'_>) -> Form {
    if matches.get_flag("json") {
        Form::Json
    } else {
        Form::Text
    }
}

/// The rule at clock changes: the one that an option chooses, or each entry's own.
pub fn clock_of(words: &ArgMatches<'_>) -> Clock {
    match changes_of(words) {
        Some(changes) => Clock::Chosen(changes),
        None => Clock::Own,
    }
}

/// The kind of the crontabs that are read: the system's with `--system`, else a user's.
pub fn kind_of(words: &ArgMatches<'_>) -> Crontab {
    if words.get_flag("system") {
        Crontab::System
    } else {
        Crontab::User
    }
}
