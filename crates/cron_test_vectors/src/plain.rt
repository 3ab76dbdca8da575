//! Questions whose rows don't begin with the expression of a schedule.

use crate::{
    arguments, callers, checks, dialects, instants, listings, shown, transitions, units, walks,
    writers, zones,
};
use anyhow::Result;
use cron_test_rows::Row;

/// The question of a file.
#[derive(Clone, Copy)]
pub(crate) enum Plain {
    /// The answers of the law `headline` for a text and a zone: start and calls.
    Headline,
    /// Why a text is refused, or `read`.
    Read,
    /// The fault of a line, found by `fault_of` of `cron_callers`.
    Faults,
    /// The text that a schedule shows, and the source that it gives up.
    Sources,
    /// Which parts of two schedules are equal.
    Pairs,
    /// Why a JSON value is refused, or `read`.
    FromJson,
    /// Which parts of two moments are equal.
    Moments,
    /// The instant of a moment that is made of a civil datetime and an offset.
    Parts,
    /// The text that an error with a message shows.
    Messages,
    /// What a schedule, a moment and an error print with a width, an alignment or a precision.
    Holes,
    /// A set of items that are added one by one.
    Items,
    /// Texts, read as expressions of a crontab and of this library.
    Dialects,
    /// All texts of ten characters `*`, `1` and space, read as expressions of a crontab and of this
    /// library.
    ShortDialects,
    /// Whether a zone's look-ups of an instant and of a civil second agree.
    Agreement,
    /// Whether two look-ups give the same at each second around the transitions of a rule.
    Transitions,
    /// Whether a text is the name of a zone.
    ZoneNames,
    /// The zone that a text opens.
    Opened,
    /// Files of the machine: their bytes, or why they can't be read.
    MachineFiles,
    /// What arguments of `cron_next` request.
    ListingArguments,
    /// Calls of a watched writer.
    Watched,
    /// Checks of files whose lines are expressions.
    Checks,
    /// Checks with readers that fail, or that go on after an end of input.
    Readers,
    /// The first fire of several schedules as one, as a check prints it.
    FirstOfAny,
    /// Runs of a listing, which writes the items of an expression.
    Runs,
    /// Answers of a listing to arguments of a command line.
    Answers,
    /// The instant that a text means in a zone.
    Spoken,
    /// The span that one word means in a zone.
    WholeSpans,
}

impl Plain {
    pub(crate) fn ask(self, row: &mut Row<'_>) -> Result<()> {
        match self {
            Plain::Headline => walks::ask_headline(row),
            Plain::Read => shown::ask_read(row),
            Plain::Faults => callers::ask_fault(row),
            Plain::Sources => shown::ask_sources(row),
            Plain::Pairs => shown::ask_pair(row),
            Plain::FromJson => shown::ask_value(row),
            Plain::Moments => shown::ask_moments(row),
            Plain::Parts => shown::ask_parts(row),
            Plain::Messages => shown::ask_message(row),
            Plain::Holes => shown::ask_holes(row),
            Plain::Items => units::ask_of_items(row),
            Plain::Dialects => dialects::ask(row),
            Plain::ShortDialects => dialects::ask_short(row),
            Plain::Agreement => transitions::ask_agreement(row),
            Plain::Transitions => transitions::ask(row),
            Plain::ZoneNames => zones::ask_name(row),
            Plain::Opened => zones::ask(row),
            Plain::MachineFiles => zones::ask_file(row),
            Plain::ListingArguments => arguments::ask_listing(row),
            Plain::Watched => writers::ask_watched(row),
            Plain::Checks => checks::ask(row),
            Plain::Readers => checks::ask_by_reader(row),
            Plain::FirstOfAny => checks::ask_first_of_any(row),
            Plain::Runs => listings::ask_run(row),
            Plain::Answers => listings::ask_answer(row),
            Plain::Spoken => instants::ask(row),
            Plain::WholeSpans => instants::ask_span(row),
        }
    }
}
