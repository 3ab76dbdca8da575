//! The program makes calls that take no memory, and prints a line after each. `tools/count_growths`
//! counts how often memory grows between the lines. The tests make calls that take memory.
#![tactic(auto)]

mod agendas;
mod fires;
mod lines;
mod readers;
mod searches;
#[cfg(test)]
mod tests;
mod walks;

use anyhow::Error;

fn main(rt: HostRuntime) -> Result<(), Error> {
    let schedule = readers::run(&rt)?;
    searches::run(&rt, &schedule)?;
    walks::run(&rt, &schedule)?;
    fires::run(&rt, &schedule)?;
    fires::run_unions(&rt, &schedule)?;
    agendas::run(&rt, &schedule)?;
    lines::run(&rt, &schedule)
}
