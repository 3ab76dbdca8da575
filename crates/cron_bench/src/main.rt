//! Prints the costs of calls, in nanoseconds:
//!
//! - `cron_bench run`: a parse, a call of a walk, and a call by instants;
//! - `cron_bench growth`: parses of longer and longer lists;
//! - `cron_bench lines`: each of 100,000 varied lines, and of lines as `crontool check
//!   --expressions` checks them;
//! - `cron_bench turn FILE`: runs and first fires around a transition of the zone in a file;
//! - `cron_bench unions`: a fire of two schedules as one;
//! - `cron_bench tabs`: expressions, lines and entries of crontabs;
//! - `cron_bench quartz`: a fire of a form of Quartz;
//! - `cron_bench agenda`: entries of an agenda, beside a `BTreeSet`;
//! - `cron_bench plans`: a fire on the days of a rule.
//!
//! `cron_bench print` prints the varied lines. Without a word it prints nothing. With other words,
//! or if a text, a zone or a file is refused, it ends with an error and the status 1.
#![tactic(auto)]

mod agendas;
mod calls;
mod checks;
mod lines;
mod parses;
mod plans;
mod quartz;
mod rounds;
mod sorted;
mod starts;
mod tabs;
mod turns;
mod unions;
mod walks;

use anyhow::{Result, bail};
use std::env;

/// Prints what `words`, the words after the program's name, select.
fn run(rt: &HostRuntime, words: &[String]) -> Result<()> {
    let Some((word, others)) = words.split_first() else {
        return Ok(());
    };
    match (word.as_str(), others) {
        ("run", []) => {
            parses::run(rt)?;
            walks::run(rt)
        }
        ("growth", []) => parses::grow(rt),
        ("lines", []) => {
            lines::run(rt)?;
            checks::run(rt)
        }
        ("print", []) => lines::print(rt),
        ("turn", [path]) => turns::run(rt, path.as_str()),
        ("unions", []) => unions::run(rt),
        ("tabs", []) => tabs::run(rt),
        ("quartz", []) => quartz::run(rt),
        ("agenda", []) => agendas::run(rt),
        ("plans", []) => plans::run(rt),
        _ => bail!(
            "usage: cron_bench \
             [run | growth | lines | print | turn FILE | unions | tabs | quartz | agenda | plans]"
        ),
    }
}

fn main(rt: HostRuntime) -> Result<()> {
    let words: Vec<String> = env::args(&rt)?.collect(rt.alloc())?;
    match words.split_first() {
        Some((_, words)) => run(&rt, words),
        None => Ok(()),
    }
}
