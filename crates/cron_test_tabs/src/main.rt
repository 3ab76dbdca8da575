//! Replays the rows of `data/`: expressions of crontabs, with what two crons read them as, or with
//! their schedules; texts with the message of their refusal; files with what their lines are;
//! warnings of lines and of files; and the fires of entries. It prints each answer that differs
//! from its row, and the number of rows of each file.
#![tactic(auto)]

mod crons;
mod files;
mod found;
mod large;
mod listing;
mod warnings;

use anyhow::Result;
use cron_crontab::read;
use cron_test_rows::{Ask, Row, ask_files};

/// What the rows of a file hold.
#[derive(Clone, Copy)]
enum Kind {
    /// An expression, and what two crons read it as.
    Crons,
    /// An expression, and its schedules.
    Schedules,
    /// A text, and the message of its refusal.
    Messages,
    /// A file, and what its lines are.
    Files,
    /// A line, and its warnings.
    Warnings,
    /// A file, and the warnings of its lines.
    LineWarnings,
    /// A crontab, and the warnings by what is around its entries.
    Found,
    /// A large file, and the number of its lines of each kind.
    Large,
    /// A line, and its fires in real crons when the clock changes.
    Changes,
    /// A line, and the days when a transition skips or doubles its time.
    ChangedDays,
    /// A crontab, and the file with its fires, or with their digests.
    Tabs,
}

const FILES: [(Kind, &str); 11] = [
    (Kind::Crons, "lines.tsv"),
    (Kind::Schedules, "schedules.txt"),
    (Kind::Messages, "messages.txt"),
    (Kind::Files, "files.tsv"),
    (Kind::Warnings, "warnings.tsv"),
    (Kind::LineWarnings, "line_warnings.tsv"),
    (Kind::Found, "found.tsv"),
    (Kind::Large, "large.tsv"),
    (Kind::Changes, "crons.tsv"),
    (Kind::ChangedDays, "changes.tsv"),
    (Kind::Tabs, "tabs.tsv"),
];

impl Ask for Kind {
    fn ask(&self, row: &mut Row<'_>) -> Result<()> {
        match self {
            Kind::Crons => crons::ask(row),
            Kind::Schedules => crons::ask_schedules(row),
            Kind::Messages => {
                let read = read(row.cell());
                row.check_refusal(&read)
            }
            Kind::Files => files::ask(row),
            Kind::Warnings => warnings::ask(row),
            Kind::LineWarnings => warnings::ask_lines(row),
            Kind::Found => found::ask(row),
            Kind::Large => large::ask(row),
            Kind::Changes => listing::ask_fires(row),
            Kind::ChangedDays => listing::ask_changes(row),
            Kind::Tabs => listing::ask_tab(row),
        }
    }
}

fn main(rt: HostRuntime) -> Result<()> {
    ask_files(&rt, &FILES)
}
