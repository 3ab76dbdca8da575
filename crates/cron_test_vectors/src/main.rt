//! Replays the rows of `data/`: of schedules, of the crates below `cron`, and of the crates over it
//! that have no rows of their own. It prints each answer that differs from its row, and the number
//! of rows of each file.
//!
//! The comments of the kinds say what a row has. Unless a comment says otherwise, the answers were
//! counted apart from this library: by hand, or by Python. Its `zoneinfo` read the rules of the
//! zones, and its `datetime` each civil second.
#![tactic(auto)]

mod answers;
mod arguments;
mod callers;
mod checks;
mod dialects;
mod fires;
mod instants;
mod laws;
mod listings;
mod plain;
mod scheduled;
mod shown;
mod spans;
mod transitions;
mod units;
mod walks;
mod words;
mod writers;
mod zoned;
mod zones;

use anyhow::Result;
use cron_test_rows::{Ask, Row, ask_files};
use plain::Plain;
use scheduled::Scheduled;
use zoned::Zoned;

/// The first cells of a file's rows.
#[derive(Clone, Copy)]
enum Kind {
    /// No expression that is read in advance.
    Plain(Plain),
    /// An expression.
    Schedule(Scheduled),
    /// An expression, and a zone.
    Zone(Zoned),
}

/// The files, each with its kind.
const FILES: [(Kind, &str); 54] = [
    (Kind::Plain(Plain::Read), "refused.txt"),
    (Kind::Plain(Plain::Faults), "faults.txt"),
    (Kind::Plain(Plain::Sources), "sources.txt"),
    (Kind::Plain(Plain::Pairs), "pairs.txt"),
    (Kind::Plain(Plain::FromJson), "json_values.txt"),
    (Kind::Schedule(Scheduled::Json), "json.txt"),
    (Kind::Schedule(Scheduled::ReadAgain), "read_again.txt"),
    (Kind::Plain(Plain::Messages), "messages.txt"),
    (Kind::Plain(Plain::Holes), "holes.txt"),
    (Kind::Schedule(Scheduled::Includes), "includes.txt"),
    (Kind::Schedule(Scheduled::Units), "units.txt"),
    (Kind::Schedule(Scheduled::Units), "days_of_month.txt"),
    (Kind::Plain(Plain::Items), "items.txt"),
    (Kind::Schedule(Scheduled::Times), "times.txt"),
    (Kind::Schedule(Scheduled::Canonical), "canonical.txt"),
    (Kind::Schedule(Scheduled::Canonical), "canonical_ranges.txt"),
    (Kind::Plain(Plain::Moments), "moments.txt"),
    (Kind::Plain(Plain::Parts), "from_parts.txt"),
    (Kind::Zone(Zoned::Parts), "parts.txt"),
    (Kind::Zone(Zoned::Walk), "walks.txt"),
    (Kind::Zone(Zoned::Walk), "stretches.txt"),
    (Kind::Plain(Plain::Headline), "headline.txt"),
    (Kind::Plain(Plain::Headline), "folds.txt"),
    (Kind::Zone(Zoned::Resumed), "resumed.txt"),
    (Kind::Zone(Zoned::Span), "spans.txt"),
    (Kind::Zone(Zoned::Included), "included.txt"),
    (Kind::Zone(Zoned::Included), "midnights.txt"),
    (Kind::Zone(Zoned::Search), "searches.txt"),
    (Kind::Zone(Zoned::Survey), "surveys.txt"),
    (Kind::Zone(Zoned::FirstInstants), "first_instants.txt"),
    (Kind::Zone(Zoned::Fires), "fires.txt"),
    (Kind::Zone(Zoned::Callers), "callers.txt"),
    (Kind::Schedule(Scheduled::Callers), "callers_of_sets.txt"),
    (Kind::Plain(Plain::Dialects), "dialects.txt"),
    (Kind::Plain(Plain::ShortDialects), "short_dialects.txt"),
    (Kind::Plain(Plain::Agreement), "agreements.txt"),
    (Kind::Plain(Plain::Transitions), "transitions.txt"),
    (Kind::Plain(Plain::ZoneNames), "zone_names.txt"),
    (Kind::Plain(Plain::Opened), "opened.txt"),
    (Kind::Plain(Plain::MachineFiles), "machine_files.txt"),
    (
        Kind::Plain(Plain::ListingArguments),
        "listing_arguments.txt",
    ),
    (Kind::Plain(Plain::Watched), "watched.txt"),
    (Kind::Plain(Plain::Checks), "checks.txt"),
    (Kind::Plain(Plain::Checks), "failed_checks.txt"),
    (Kind::Plain(Plain::Readers), "readers.txt"),
    (Kind::Plain(Plain::FirstOfAny), "first_of_any.txt"),
    (Kind::Plain(Plain::Runs), "runs.txt"),
    (Kind::Plain(Plain::Runs), "failed_runs.txt"),
    (Kind::Zone(Zoned::Page), "pages.txt"),
    (Kind::Zone(Zoned::Page), "failed_pages.txt"),
    (Kind::Plain(Plain::Answers), "answers.txt"),
    (Kind::Plain(Plain::Answers), "failed_answers.txt"),
    (Kind::Plain(Plain::Spoken), "spoken.txt"),
    (Kind::Plain(Plain::WholeSpans), "whole_spans.txt"),
];

impl Ask for Kind {
    fn ask(&self, row: &mut Row<'_>) -> Result<()> {
        match self {
            Kind::Plain(kind) => kind.ask(row)?,
            Kind::Schedule(kind) => scheduled::ask(row, *kind)?,
            Kind::Zone(kind) => zoned::ask(row, *kind)?,
        }
        row.check("the answer")
    }
}

fn main(rt: HostRuntime) -> Result<()> {
    ask_files(&rt, &FILES)
}
