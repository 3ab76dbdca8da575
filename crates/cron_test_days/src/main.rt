//! Replays the rows of `data/`: rules of days, which Python's `datetime` counted day by day, and
//! sets by such rules, which it counted second by second in stretches. It prints each answer that
//! differs from its row, and the number of rows of each file.
#![tactic(auto)]

mod rules;
mod sets;

use anyhow::Result;
use cron_test_rows::{Ask, Row, ask_files};

/// What the rows of a file hold.
#[derive(Clone, Copy)]
enum Kind {
    /// Rules, how many days of 1970 to 2100 they allow all at once, the sum of their numbers, and
    /// that of the squares of these.
    Rules,
    /// A kind of set, its expression, rules or another expression, a stretch of civil seconds, and
    /// how many of them the set has, the first, the last, and the sum of them, each times its place.
    Sets,
}

const FILES: [(Kind, &str); 2] = [(Kind::Rules, "rules.tsv"), (Kind::Sets, "sets.tsv")];

impl Ask for Kind {
    fn ask(&self, row: &mut Row<'_>) -> Result<()> {
        match self {
            Kind::Rules => rules::ask(row),
            Kind::Sets => sets::ask(row),
        }
    }
}

fn main(rt: HostRuntime) -> Result<()> {
    ask_files(&rt, &FILES)
}
