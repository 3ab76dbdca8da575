//! The subcommands of planners, `windows`, `inside` and `rota`, each with its arguments and options.

use crate::subcommands::Subcommand;
use crate::words::{
    AN_ICS, AN_INSTANT_OR_DAY, AN_OBJECT, AS_SHOWN, END, JSON_ROWS, Kind, ONCE, QUARTZ, Rule,
    START, UID_DOMAIN, Word, ZONE,
};

const OPENS: Word = Word(
    "opens",
    Kind::Needed("EXPRESSION"),
    &[],
    "When a window opens",
);

const CLOSES: Word = Word(
    "closes",
    Kind::Needed("EXPRESSION"),
    &[Rule::Unless("minutes"), Rule::Without("minutes")],
    "When it closes",
);

const MINUTES: Word = Word(
    "minutes",
    Kind::Number("N"),
    &[],
    "How long it is open, in place of --closes",
);

static WINDOWS: Subcommand = Subcommand {
    name: "windows",
    about: "Lists when windows open and close, from START to END, or in a DAY",
    usages: &[
        "[OPTIONS] --opens <EXPRESSION> --closes <EXPRESSION> <START> <END>",
        "[OPTIONS] --opens <EXPRESSION> --minutes <N> <DAY>",
    ],
    examples: [
        "windows 2024-03 --opens '0 22 * * 5' --closes '0 6 * * 1'",
        "windows 2024-03 --opens '0 22 * * 5' --minutes 30 --ics --summary Work",
    ],
    words: &[
        START,
        END,
        OPENS,
        CLOSES,
        MINUTES,
        Word("ics", Kind::Flag, &[Rule::Without("json")], AN_ICS),
        Word(
            "summary",
            Kind::Choice("TEXT"),
            &[Rule::With("ics")],
            "The title of each event: open if left out",
        ),
        UID_DOMAIN,
        QUARTZ,
        ZONE,
        ONCE,
        AS_SHOWN,
        JSON_ROWS,
    ],
    plan: &[],
};

/// The subcommand `windows`.
pub(crate) fn windows() -> &'static Subcommand {
    &WINDOWS
}

static INSIDE: Subcommand = Subcommand {
    name: "inside",
    about: "Says whether a window is open, since when and until when, by its status too",
    usages: &[
        "[OPTIONS] --opens <EXPRESSION> --closes <EXPRESSION>",
        "[OPTIONS] --opens <EXPRESSION> --minutes <N>",
    ],
    examples: [
        "inside --opens '0 22 * * 5' --closes '0 6 * * 1'",
        "inside --opens @hourly --minutes 10 --at 2024-03-01T03:05:00Z",
    ],
    words: &[
        Word(
            "at",
            Kind::Default("INSTANT", "now"),
            &[],
            "The instant that is asked about",
        ),
        OPENS,
        CLOSES,
        MINUTES,
        QUARTZ,
        ZONE,
        ONCE,
        AS_SHOWN,
        AN_OBJECT,
    ],
    plan: &[],
};

/// The subcommand `inside`.
pub(crate) fn inside() -> &'static Subcommand {
    &INSIDE
}

static ROTA: Subcommand = Subcommand {
    name: "rota",
    about: "Lists who is on duty from START to END, or in a DAY, or tells who is at an instant",
    usages: &[
        "[OPTIONS] --people <NAMES> --handover <EXPRESSION> --from <INSTANT> <START> <END>",
        "[OPTIONS] --people <NAMES> --handover <EXPRESSION> --from <INSTANT> <DAY>",
        "[OPTIONS] --people <NAMES> --handover <EXPRESSION> --from <INSTANT> --at <INSTANT>",
    ],
    examples: [
        "rota 2024-03 --people ann,bob --handover '0 9 * * 1' --from 2024-01-01 --ics",
        "rota --at now --people ann,bob --handover '0 9 * * 1' --from 2024-01-01 --swaps swaps.txt",
    ],
    words: &[
        Word(
            "START",
            Kind::Given,
            &[Rule::Unless("at"), Rule::Without("at")],
            AN_INSTANT_OR_DAY,
        ),
        Word("END", Kind::Maybe, &[Rule::Without("at")], "An instant"),
        Word(
            "at",
            Kind::Choice("INSTANT"),
            &[],
            "Tells who is on duty then",
        ),
        Word(
            "people",
            Kind::Needed("NAMES"),
            &[],
            "Who takes turns, in order: ann,bob,cyd",
        ),
        Word(
            "handover",
            Kind::Needed("EXPRESSION"),
            &[],
            "When the next one takes over",
        ),
        Word(
            "from",
            Kind::Needed("INSTANT"),
            &[],
            "When the first one is on duty first",
        ),
        Word(
            "swaps",
            Kind::Choice("FILE"),
            &[],
            "Who stands in: lines of FROM, UNTIL and a name, with tabs between",
        ),
        Word(
            "ics",
            Kind::Flag,
            &[Rule::Without("json"), Rule::Without("at")],
            AN_ICS,
        ),
        UID_DOMAIN,
        QUARTZ,
        ZONE,
        ONCE,
        AS_SHOWN,
        JSON_ROWS,
    ],
    plan: &[],
};

/// The subcommand `rota`.
pub(crate) fn rota() -> &'static Subcommand {
    &ROTA
}
