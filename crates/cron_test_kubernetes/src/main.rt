//! Replays the rows of `data/`: schedules of CronJobs, with what robfig/cron 3.0.1 reads each as and
//! its first fires, and texts with the message of their refusal. It prints each answer that differs
//! from its row, and the number of rows of each file.
#![tactic(auto)]

mod schedules;

use anyhow::Result;
use cron_kubernetes::read;
use cron_test_rows::{Ask, Row, ask_files};

/// What the rows of a file hold.
#[derive(Clone, Copy)]
enum Kind {
    /// A text, its sets as robfig/cron reads them, and its first fires.
    Schedules,
    /// A text, and the message of its refusal.
    Messages,
}

const FILES: [(Kind, &str); 2] = [
    (Kind::Schedules, "schedules.tsv"),
    (Kind::Messages, "messages.txt"),
];

impl Ask for Kind {
    fn ask(&self, row: &mut Row<'_>) -> Result<()> {
        match self {
            Kind::Schedules => schedules::ask(row),
            Kind::Messages => {
                let read = read(row.cell());
                row.check_refusal(&read)
            }
        }
    }
}

fn main(rt: HostRuntime) -> Result<()> {
    ask_files(&rt, &FILES)
}
