//! The subcommands that write calendars, `calendar` and `ics`, each with its arguments and options.

use crate::subcommands::Subcommand;
use crate::words::{
    AN_UID_DOMAIN, AS_SHOWN, COLOR, END, EXPRESSIONS, FILE, Kind, LAST, ONCE, PLAN, QUARTZ, Rule,
    START, Word, ZONE,
};

static CALENDAR: Subcommand = Subcommand {
    name: "calendar",
    about: "Shows how many fires each day has",
    usages: &[],
    examples: [
        "calendar 2024-03 '0 3 * * *' '0 12 * * 1-5'",
        "calendar 2024 --file jobs.crontab --html",
    ],
    words: &[
        Word("PERIOD", Kind::Given, &[], "A year, or a month as 2024-03"),
        EXPRESSIONS,
        QUARTZ,
        FILE,
        Word(
            "width",
            Kind::Number("N"),
            &[],
            "How many columns: COLUMNS, or 80",
        ),
        Word("html", Kind::Flag, &[], "A page of HTML"),
        Word(
            "json",
            Kind::Flag,
            &[Rule::Without("html")],
            "An object of JSON for each day",
        ),
        COLOR,
        ZONE,
        ONCE,
        AS_SHOWN,
        LAST,
    ],
    plan: &PLAN,
};

/// The subcommand `calendar`.
pub(crate) fn calendar() -> &'static Subcommand {
    &CALENDAR
}

static ICS: Subcommand = Subcommand {
    name: "ics",
    about: "Writes the fires of between as a calendar of RFC 5545",
    usages: &[
        "[OPTIONS] <START> <END> <EXPRESSION>...",
        "[OPTIONS] <DAY> <EXPRESSION>...",
    ],
    examples: [
        "ics 2024-03 '0 9 * * 1' --minutes 30",
        "ics 2024-03-01 2024-04-01 --file jobs.crontab --most 500",
    ],
    words: &[
        START,
        END,
        EXPRESSIONS,
        FILE,
        Word(
            "minutes",
            Kind::Number("N"),
            &[],
            "How long an event is: 1 if left out",
        ),
        Word(
            "most",
            Kind::Number("N"),
            &[],
            "How many events at most: 10000 if left out",
        ),
        Word("uid-domain", Kind::Choice("NAME"), &[], AN_UID_DOMAIN),
        QUARTZ,
        ZONE,
        ONCE,
        AS_SHOWN,
        LAST,
    ],
    plan: &PLAN,
};

/// The subcommand `ics`.
pub(crate) fn ics() -> &'static Subcommand {
    &ICS
}
