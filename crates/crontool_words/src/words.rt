//! The words of a subcommand's line, which are its arguments and options. Those that several
//! subcommands have are here too.

/// A rule on another word of the line.
#[derive(Clone, Copy)]
pub(crate) enum Rule {
    /// The other word must be there too.
    With(&'static str),
    /// The other word must not be there.
    Without(&'static str),
    /// The word may be left out if the other is there.
    Unless(&'static str),
}

/// What kind of argument or option a word is.
#[derive(Clone, Copy)]
pub(crate) enum Kind {
    /// An argument that must be there.
    Given,
    /// An argument that may be left out.
    Maybe,
    /// At least this number of arguments.
    Many(usize),
    /// `--NAME`, without a value.
    Flag,
    /// `--NAME VALUE`, which may be left out.
    Choice(&'static str),
    /// `--NAME VALUE`, a number, which may be left out.
    Number(&'static str),
    /// `--NAME N` or `-n N`, a number, which may be left out.
    Count,
    /// `--NAME VALUE`, or its default.
    Default(&'static str, &'static str),
    /// `--NAME VALUE`, which must be there.
    Needed(&'static str),
    /// `--NAME VALUE`, which may be left out, and may be there several times.
    ChoiceMany(&'static str),
    /// `--NAME VALUE`, a number of 32 bits, which must be there.
    NeededNumber(&'static str),
}

/// An argument or option of a subcommand: its name, its kind, its rules on others, and its line of
/// the help.
#[derive(Clone, Copy)]
pub(crate) struct Word(
    pub(crate) &'static str,
    pub(crate) Kind,
    pub(crate) &'static [Rule],
    pub(crate) &'static str,
);

/// What the help says of EXPRESSION.
pub(crate) const AN_EXPRESSION: &str = "A cron expression";

pub(crate) const EXPRESSION: Word = Word("EXPRESSION", Kind::Given, &[], AN_EXPRESSION);

pub(crate) const EXPRESSIONS: Word = Word("EXPRESSION", Kind::Many(0), &[], "Cron expressions");

/// What the help says of OTHER.
pub(crate) const ANOTHER: &str = "Another one";

pub(crate) const OTHER: Word = Word("OTHER", Kind::Given, &[], ANOTHER);

pub(crate) const QUARTZ: Word = Word("quartz", Kind::Flag, &[], "Expressions are of Quartz");

/// What the help says of START where END may be left out.
pub(crate) const AN_INSTANT_OR_DAY: &str = "An instant; or, without END, a day, a month or tonight";

pub(crate) const START: Word = Word("START", Kind::Given, &[], AN_INSTANT_OR_DAY);

pub(crate) const END: Word = Word("END", Kind::Maybe, &[], "An instant");

/// What the help says of `--after`.
pub(crate) const AFTER_START: &str = "The instant after which fires come";

pub(crate) const AFTER: Word = Word("after", Kind::Default("START", "now"), &[], AFTER_START);

/// What the help says of FILE.
pub(crate) const A_FILE: &str = "A file, or - for standard input";

pub(crate) const FILES: Word = Word("FILE", Kind::Many(1), &[], A_FILE);

pub(crate) const FILE: Word = Word("file", Kind::ChoiceMany("FILE"), &[], A_FILE);

pub(crate) const SYSTEM: Word = Word("system", Kind::Flag, &[], "Entries name a user");

pub(crate) const JSON: Word = Word("json", Kind::Flag, &[], "An object of JSON for each fire");

/// `--json` where a row is told of an entry, or of two.
pub(crate) const JSON_ROWS: Word = Word("json", Kind::Flag, &[], "An object of JSON for each row");

pub(crate) const AN_OBJECT: Word = Word("json", Kind::Flag, &[], "The answer as an object of JSON");

pub(crate) const ZONE: Word = Word(
    "zone",
    Kind::Default("ZONE", "local"),
    &[],
    "UTC, a rule, a name or local",
);

pub(crate) const ONCE: Word = Word(
    "once",
    Kind::Flag,
    &[Rule::Without("as-shown")],
    "Each match once, also where the clock changes",
);

pub(crate) const AS_SHOWN: Word = Word(
    "as-shown",
    Kind::Flag,
    &[],
    "Each time that the clock shows a match",
);

pub(crate) const TIME_FORMAT: Word = Word(
    "time-format",
    Kind::Choice("FORMAT"),
    &[Rule::Without("json")],
    "How times are written, by strftime: '%F %T %z'",
);

pub(crate) const COLOR: Word = Word(
    "color",
    Kind::Default("WHEN", "auto"),
    &[],
    "Colours: auto, always or never",
);

/// What UIDs of a calendar end with.
pub(crate) const AN_UID_DOMAIN: &str =
    "What UIDs end with: the name in /etc/hostname if left out, or crontool";

/// `--uid-domain` where `--ics` chooses a calendar.
pub(crate) const UID_DOMAIN: Word = Word(
    "uid-domain",
    Kind::Choice("NAME"),
    &[Rule::With("ics")],
    AN_UID_DOMAIN,
);

/// What the help says of `--ics`.
pub(crate) const AN_ICS: &str = "A calendar of RFC 5545, with an event for each row";

pub(crate) const RUNS: Word = Word("count", Kind::Count, &[], "How many runs at most");

/// `--last` of a plan.
pub(crate) const LAST: Word = Word("last", Kind::Choice("DATE"), &[], "The last day with fires");

/// `--last` of a plan where `--last` is an instant.
pub(crate) const LAST_DAY: Word = Word(
    "last-day",
    Kind::Choice("DATE"),
    &[],
    "The last day with fires",
);

/// The other options of a plan: which fires are left out, and where they move.
pub(crate) const PLAN: [Word; 6] = [
    Word(
        "every",
        Kind::Choice("STEP"),
        &[Rule::With("anchor")],
        "Every third day is 3d, every other week 2w, or month 2mo",
    ),
    Word(
        "anchor",
        Kind::Choice("DATE"),
        &[Rule::With("every")],
        "A date in one of those of --every",
    ),
    Word(
        "first",
        Kind::Choice("DATE"),
        &[],
        "The first day with fires",
    ),
    Word(
        "holidays",
        Kind::Choice("FILE"),
        &[],
        "Days without fires: a date a line, or an .ics",
    ),
    Word(
        "move",
        Kind::Choice("WAY"),
        &[],
        "Moves fires on other days to an allowed one: before or after",
    ),
    Word(
        "except",
        Kind::Choice("EXPRESSION"),
        &[],
        "Leaves out what this matches",
    ),
];
