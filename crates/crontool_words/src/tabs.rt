//! The subcommands that tell of crontabs, each with its arguments and options.

use crate::subcommands::Subcommand;
use crate::words::{
    A_FILE, AFTER_START, AN_EXPRESSION, ANOTHER, AS_SHOWN, COLOR, END, FILE, FILES, JSON,
    JSON_ROWS, Kind, ONCE, QUARTZ, Rule, START, SYSTEM, TIME_FORMAT, Word, ZONE,
};

static LIST: Subcommand = Subcommand {
    name: "list",
    about: "Lists the fires of crontabs, of the next 24 hours unless told: crontab -l | crontool list -",
    usages: &[
        "[OPTIONS] <FILE>...",
        "[OPTIONS] <START> <END> <FILE>...",
        "[OPTIONS] <DAY> <FILE>...",
        "[OPTIONS] --count <N> [--after <START>] <FILE>...",
    ],
    examples: [
        "list tonight jobs.crontab",
        "list --count 10 jobs.crontab backup.crontab",
    ],
    words: &[
        Word(
            "START|FILE",
            Kind::Given,
            &[],
            "An instant, a day, a month or tonight; or a file",
        ),
        Word("END|FILE", Kind::Maybe, &[], "An instant; or a file"),
        Word(
            "FILE",
            Kind::Many(0),
            &[],
            "A file, or - for standard input; ./today is the file today",
        ),
        Word(
            "count",
            Kind::Count,
            &[],
            "The first N fires, without START and END",
        ),
        Word(
            "after",
            Kind::Choice("START"),
            &[Rule::With("count")],
            AFTER_START,
        ),
        SYSTEM,
        JSON,
        TIME_FORMAT,
        COLOR,
        ZONE,
        ONCE,
        AS_SHOWN,
    ],
    plan: &[],
};

/// The subcommand `list`.
pub(crate) fn list() -> &'static Subcommand {
    &LIST
}

static CHECK: Subcommand = Subcommand {
    name: "check",
    about: "Tells which lines of crontabs are refused",
    usages: &[],
    examples: [
        "check jobs.crontab backup.crontab",
        "check --system --warn /etc/crontab",
    ],
    words: &[
        FILES,
        SYSTEM,
        Word("no-warn", Kind::Flag, &[], "Leaves out warnings"),
        Word(
            "warn",
            Kind::Flag,
            &[Rule::Without("no-warn")],
            "Warns, as without this",
        ),
        Word(
            "after",
            Kind::Choice("START"),
            &[],
            "Warnings look at the year after START, or after now",
        ),
        Word(
            "expressions",
            Kind::Flag,
            &[
                Rule::Without("system"),
                Rule::Without("warn"),
                Rule::Without("no-warn"),
                Rule::Without("after"),
            ],
            "Each line is an expression of this library",
        ),
        Word(
            "sets",
            Kind::Flag,
            &[Rule::With("expressions"), Rule::Without("next")],
            "The sets of each expression, in short form",
        ),
        Word(
            "next",
            Kind::Choice("START"),
            &[Rule::With("expressions")],
            "The first fire of each expression after an instant",
        ),
        Word(
            "zone",
            Kind::Default("ZONE", "local"),
            &[],
            "The zone of entries, and of --next",
        ),
    ],
    plan: &[],
};

/// The subcommand `check`.
pub(crate) fn check() -> &'static Subcommand {
    &CHECK
}

static COMPARE: Subcommand = Subcommand {
    name: "compare",
    about: "Tells whether two expressions, or two crontabs, match the same civil seconds",
    usages: &[
        "[OPTIONS] <EXPRESSION> <OTHER>",
        "[OPTIONS] --file <FILE> --file <FILE>",
    ],
    examples: [
        "compare '0 0 * * 0' @weekly",
        "compare --file old.crontab --file new.crontab",
    ],
    words: &[
        Word(
            "EXPRESSION",
            Kind::Given,
            &[Rule::Unless("file")],
            AN_EXPRESSION,
        ),
        Word("OTHER", Kind::Given, &[Rule::Unless("file")], ANOTHER),
        QUARTZ,
        Word(
            "file",
            Kind::ChoiceMany("FILE"),
            &[Rule::Without("EXPRESSION"), Rule::Without("quartz")],
            A_FILE,
        ),
        Word(
            "files",
            Kind::Flag,
            &[Rule::Without("file"), Rule::Without("quartz")],
            "EXPRESSION and OTHER are files, as after --file",
        ),
        SYSTEM,
        Word(
            "json",
            Kind::Flag,
            &[],
            "The answer, or each row of crontabs, as an object of JSON",
        ),
    ],
    plan: &[],
};

/// The subcommand `compare`.
pub(crate) fn compare() -> &'static Subcommand {
    &COMPARE
}

static COLLISIONS: Subcommand = Subcommand {
    name: "collisions",
    about: "Tells which entries of crontabs collide after START, up to and with END, or in a DAY",
    usages: &[
        "[OPTIONS] --minutes <N> <START> <END> <FILE>...",
        "[OPTIONS] --minutes <N> <DAY> <FILE>...",
    ],
    examples: [
        "collisions 2024-03-01 2024-03-08 jobs.crontab --minutes 30",
        "collisions tomorrow a.crontab b.crontab --minutes 5",
    ],
    words: &[
        START,
        END,
        Word(
            "minutes",
            Kind::NeededNumber("N"),
            &[],
            "How long each fire lasts",
        ),
        Word("FILE", Kind::Many(0), &[], A_FILE),
        FILE,
        SYSTEM,
        JSON_ROWS,
        ZONE,
        ONCE,
        AS_SHOWN,
    ],
    plan: &[],
};

/// The subcommand `collisions`.
pub(crate) fn collisions() -> &'static Subcommand {
    &COLLISIONS
}

static SYSTEMD: Subcommand = Subcommand {
    name: "systemd",
    about: "Writes a timer and a service of systemd for each entry of a crontab",
    usages: &[],
    examples: [
        "systemd jobs.crontab --to ~/.config/systemd/user",
        "systemd --system /etc/crontab --to /etc/systemd/system --persistent",
    ],
    words: &[
        Word("FILE", Kind::Given, &[], A_FILE),
        Word(
            "to",
            Kind::Needed("FOLDER"),
            &[],
            "Where the units are written; a file that is there is kept",
        ),
        Word(
            "persistent",
            Kind::Flag,
            &[],
            "Timers start at once what was missed",
        ),
        SYSTEM,
        Word(
            "after",
            Kind::Choice("START"),
            &[],
            "Notes look at the year after START, or after now",
        ),
        Word(
            "zone",
            Kind::Default("ZONE", "local"),
            &[],
            "UTC or a name, which is written after each line, or local",
        ),
    ],
    plan: &[],
};

/// The subcommand `systemd`.
pub(crate) fn systemd() -> &'static Subcommand {
    &SYSTEMD
}
