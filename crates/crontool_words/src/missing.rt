//! The subcommands about missed and pending fires, `late`, `missed`, `due` and `done`, each with its
//! arguments and options.

use crate::subcommands::Subcommand;
use crate::words::{
    AN_OBJECT, AS_SHOWN, EXPRESSION, FILE, FILES, JSON, JSON_ROWS, Kind, LAST_DAY, ONCE, PLAN,
    QUARTZ, Rule, SYSTEM, Word, ZONE,
};

static LATE: Subcommand = Subcommand {
    name: "late",
    about: "Says whether a fire was missed since the last run, by its status too",
    usages: &[],
    examples: [
        "late '0 3 * * *' --last 2024-03-01T03:00:00Z --grace 3600",
        "late @hourly --last @1709262000 --grace 600 --zone UTC",
    ],
    words: &[
        EXPRESSION,
        QUARTZ,
        Word(
            "last",
            Kind::Needed("INSTANT"),
            &[],
            "The instant of the last run",
        ),
        Word(
            "grace",
            Kind::NeededNumber("SECONDS"),
            &[],
            "How long after a fire its run may be noted",
        ),
        ZONE,
        ONCE,
        AS_SHOWN,
        AN_OBJECT,
        LAST_DAY,
    ],
    plan: &PLAN,
};

/// The subcommand `late`.
pub(crate) fn late() -> &'static Subcommand {
    &LATE
}

static MISSED: Subcommand = Subcommand {
    name: "missed",
    about: "Tells which fires entries of crontabs missed, up to and with now, by its status too",
    usages: &[
        "[OPTIONS] --since <INSTANT> <FILE>...",
        "[OPTIONS] --state <FOLDER> <FILE>...",
    ],
    examples: [
        "missed --since 2024-03-01T03:00:00Z jobs.crontab",
        "missed --state /var/lib/cron jobs.crontab",
    ],
    words: &[
        FILES,
        Word(
            "since",
            Kind::Needed("INSTANT"),
            &[Rule::Unless("state"), Rule::Without("state")],
            "The instant after which fires count",
        ),
        Word(
            "state",
            Kind::Choice("FOLDER"),
            &[],
            "The folder of a run, whose note says from when on its entries count",
        ),
        SYSTEM,
        JSON_ROWS,
        ZONE,
        ONCE,
        AS_SHOWN,
    ],
    plan: &[],
};

/// The subcommand `missed`.
pub(crate) fn missed() -> &'static Subcommand {
    &MISSED
}

static DUE: Subcommand = Subcommand {
    name: "due",
    about: "Lists the fires that came due after the one that a stamp notes",
    usages: &[],
    examples: [
        "due backup.stamp '0 3 * * *'",
        "due backup.stamp @daily --latest --zone UTC",
    ],
    words: &[
        Word("STAMP", Kind::Given, &[], "A file, as `done` writes it"),
        EXPRESSION,
        QUARTZ,
        ZONE,
        ONCE,
        AS_SHOWN,
        JSON,
        Word("latest", Kind::Flag, &[], "The last of them alone"),
    ],
    plan: &[],
};

/// The subcommand `due`.
pub(crate) fn due() -> &'static Subcommand {
    &DUE
}

static DONE: Subcommand = Subcommand {
    name: "done",
    about: "Notes a fire in a stamp, unless it notes a later one",
    usages: &[],
    examples: [
        "done backup.stamp '2024-03-01 03:00:00 +00:00'",
        "done backup.stamp 2024-03-01T03:00:00Z",
    ],
    words: &[
        Word("STAMP", Kind::Given, &[], "A file"),
        Word("FIRE", Kind::Given, &[], "A fire as it was printed"),
    ],
    plan: &[],
};

/// The subcommand `done`.
pub(crate) fn done() -> &'static Subcommand {
    &DONE
}
