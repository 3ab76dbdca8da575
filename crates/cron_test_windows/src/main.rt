//! Replays the rows of `data/`: windows and rotas, whose answers Python read off an array with one
//! byte a second, over fires by its `zoneinfo`. It prints each answer that differs from its row, and
//! the number of rows of each file.
#![tactic(auto)]

mod refused;
mod rotas;
mod spans;
mod windows;

use anyhow::Result;
use cron_test_rows::{Ask, Row, ask_files};

/// What the rows of a file hold.
#[derive(Clone, Copy)]
enum Kind {
    /// A rule, a zone, the opening set, what closes, and two seconds: the stretches between them,
    /// the windows, and how many seconds these have.
    Windows,
    /// The same with a second between the two: the stretch around it.
    States,
    /// A rule, a zone, how many people, the handovers, the start, swaps, and two seconds: the
    /// shifts between them, and each person's seconds.
    Rotas,
    /// A rule, a zone, a rota, and a second: who is on duty.
    Who,
    /// How many people, and swaps: whether the rota is taken, or why not.
    Refused,
}

const FILES: [(Kind, &str); 5] = [
    (Kind::Windows, "windows.tsv"),
    (Kind::States, "states.tsv"),
    (Kind::Rotas, "rotas.tsv"),
    (Kind::Who, "who.tsv"),
    (Kind::Refused, "refused.tsv"),
];

impl Ask for Kind {
    fn ask(&self, row: &mut Row<'_>) -> Result<()> {
        match self {
            Kind::Windows => windows::ask_windows(row),
            Kind::States => windows::ask_state(row),
            Kind::Rotas => rotas::ask_rota(row),
            Kind::Who => rotas::ask_who(row),
            Kind::Refused => refused::ask(row),
        }
    }
}

fn main(rt: HostRuntime) -> Result<()> {
    ask_files(&rt, &FILES)
}
