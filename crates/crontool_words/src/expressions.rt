//! The subcommands that tell of expressions, each with its arguments and options.

use crate::subcommands::Subcommand;
use crate::words::{
    AFTER, AN_OBJECT, AS_SHOWN, COLOR, END, EXPRESSION, JSON, Kind, LAST, ONCE, OTHER, PLAN,
    QUARTZ, Rule, START, TIME_FORMAT, Word, ZONE,
};

static NEXT: Subcommand = Subcommand {
    name: "next",
    about: "Lists the next fires",
    usages: &["[OPTIONS] [N] <EXPRESSION>"],
    examples: [
        "next '30 9 * * mon-fri' --zone Europe/Berlin",
        "next 1 @daily --back",
    ],
    words: &[
        Word(
            "EXPRESSION",
            Kind::Many(1),
            &[],
            "A cron expression; a number before it is --count",
        ),
        Word(
            "count",
            Kind::Count,
            &[],
            "How many fires at most: 5 if left out",
        ),
        QUARTZ,
        ZONE,
        ONCE,
        AS_SHOWN,
        JSON,
        TIME_FORMAT,
        COLOR,
        Word(
            "back",
            Kind::Flag,
            &[],
            "The last fires before START, the latest first",
        ),
        AFTER,
        LAST,
    ],
    plan: &PLAN,
};

/// The subcommand `next`.
pub(crate) fn next() -> &'static Subcommand {
    &NEXT
}

static BETWEEN: Subcommand = Subcommand {
    name: "between",
    about: "Lists the fires after START, up to and with END, or of a DAY",
    usages: &[
        "[OPTIONS] <START> <END> <EXPRESSION>",
        "[OPTIONS] <DAY> <EXPRESSION>",
    ],
    examples: [
        "between today '0 */6 * * *'",
        "between now @1900000000 '0 0 1 1 *' --json",
    ],
    words: &[
        START,
        END,
        Word("EXPRESSION", Kind::Maybe, &[], "A cron expression"),
        QUARTZ,
        ZONE,
        ONCE,
        AS_SHOWN,
        JSON,
        TIME_FORMAT,
        LAST,
    ],
    plan: &PLAN,
};

/// The subcommand `between`.
pub(crate) fn between() -> &'static Subcommand {
    &BETWEEN
}

static EXPLAIN: Subcommand = Subcommand {
    name: "explain",
    about: "Tells in words when an expression fires, or each entry of crontabs",
    usages: &["[OPTIONS] <EXPRESSION>", "[OPTIONS] --file <FILE>..."],
    examples: [
        "explain '30 9 * * mon-fri'",
        "explain '0 0 12 L * ?' --quartz --after 2024-03-01",
    ],
    words: &[
        Word(
            "EXPRESSION",
            Kind::Given,
            &[Rule::Unless("file")],
            "A cron expression, or else a line of a crontab",
        ),
        QUARTZ,
        Word(
            "file",
            Kind::ChoiceMany("FILE"),
            &[Rule::Without("EXPRESSION"), Rule::Without("quartz")],
            "Each entry of FILE, or of standard input for -, in a row",
        ),
        Word(
            "system",
            Kind::Flag,
            &[Rule::Without("EXPRESSION"), Rule::Without("quartz")],
            "Entries name a user",
        ),
        ZONE,
        ONCE,
        AS_SHOWN,
        JSON,
        AFTER,
        LAST,
    ],
    plan: &PLAN,
};

/// The subcommand `explain`.
pub(crate) fn explain() -> &'static Subcommand {
    &EXPLAIN
}

static OVERLAP: Subcommand = Subcommand {
    name: "overlap",
    about: "Tells the first civil second that two expressions both match",
    usages: &[],
    examples: [
        "overlap '0 */2 * * *' '0 */3 * * *'",
        "overlap '0 0 12 ? * MON' '0 0 12 1 * ?' --quartz",
    ],
    words: &[EXPRESSION, OTHER, QUARTZ, AN_OBJECT],
    plan: &[],
};

/// The subcommand `overlap`.
pub(crate) fn overlap() -> &'static Subcommand {
    &OVERLAP
}

static ON_CALENDAR: Subcommand = Subcommand {
    name: "oncalendar",
    about: "Writes an expression as lines of systemd's OnCalendar",
    usages: &[],
    examples: [
        "oncalendar '30 9 * * mon-fri'",
        "oncalendar @daily --zone Europe/Berlin",
    ],
    words: &[
        EXPRESSION,
        QUARTZ,
        Word(
            "zone",
            Kind::Default("ZONE", "local"),
            &[],
            "UTC or a name, which is written after each line, or local",
        ),
    ],
    plan: &[],
};

/// The subcommand `oncalendar`.
pub(crate) fn on_calendar() -> &'static Subcommand {
    &ON_CALENDAR
}
