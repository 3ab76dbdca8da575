//! The subcommands that wait for fires, `run` and `alarm`, each with its arguments and options.

use crate::subcommands::Subcommand;
use crate::words::{
    AS_SHOWN, EXPRESSION, FILES, Kind, ONCE, QUARTZ, RUNS, Rule, SYSTEM, Word, ZONE,
};

static RUN: Subcommand = Subcommand {
    name: "run",
    about: "Writes the command of each entry of crontabs when it fires",
    usages: &[],
    examples: [
        "run jobs.crontab",
        "run --shell --state /var/lib/cron jobs.crontab",
    ],
    words: &[
        FILES,
        Word("shell", Kind::Flag, &[], "Lines that a shell runs"),
        SYSTEM,
        Word(
            "user",
            Kind::Choice("NAME"),
            &[Rule::With("system")],
            "Only this user's entries",
        ),
        Word("reboot", Kind::Flag, &[], "Run @reboot once at the start"),
        Word(
            "late",
            Kind::Default("RULE", "latest"),
            &[],
            "Of late fires each, latest or within=SECONDS",
        ),
        Word(
            "state",
            Kind::Choice("FOLDER"),
            &[Rule::Without("count")],
            "Where it is noted what was run",
        ),
        Word(
            "alone",
            Kind::Flag,
            &[Rule::With("shell"), Rule::With("state")],
            "Passes an entry over while its last command runs",
        ),
        Word(
            "timeout",
            Kind::Number("SECONDS"),
            &[Rule::With("shell")],
            "Ends a command that runs longer",
        ),
        Word(
            "log",
            Kind::Choice("FOLDER"),
            &[Rule::With("shell")],
            "Where each entry has a file of its output",
        ),
        ZONE,
        ONCE,
        AS_SHOWN,
        RUNS,
    ],
    plan: &[],
};

/// The subcommand `run`.
pub(crate) fn run() -> &'static Subcommand {
    &RUN
}

static ALARM: Subcommand = Subcommand {
    name: "alarm",
    about: "Writes a line at each fire of an expression, when it comes",
    usages: &[],
    examples: ["alarm '0 * * * *'", "alarm @daily --count 1 --zone UTC"],
    words: &[EXPRESSION, QUARTZ, ZONE, ONCE, AS_SHOWN, RUNS],
    plan: &[],
};

/// The subcommand `alarm`.
pub(crate) fn alarm() -> &'static Subcommand {
    &ALARM
}
