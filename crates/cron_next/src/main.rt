//! `cron_next EXPRESSION START ZONE COUNT [back]` lists the next items of a cron expression, or,
//! with `back`, the previous ones.
#![tactic(auto)]

#[cfg(test)]
mod tests;

use cron_walk_listing::answer::{Status, answer, usage};
use cron_walk_listing::run::refuse;
use cron_writer::watched::Watched;
use std::env;
use std::io::{self, ErrorKind};
use std::process::ExitCode;

// The arguments, with the program's name before them.
fn arguments_of(rt: &HostRuntime) -> io::Result<Vec<String>> {
    Ok(env::args(rt)?.collect(rt.alloc())?)
}

fn main(rt: HostRuntime) -> ExitCode {
    let mut out = Watched::new(io::writer(&rt));
    let status = match arguments_of(&rt) {
        Ok(arguments) => match arguments.as_slice().split_first() {
            Some((_, arguments)) => answer(rt.alloc(), arguments, &mut out),
            None => usage(&mut out),
        },
        Err(error) if error.kind() == ErrorKind::OutOfMemory => {
            Status::from(refuse(&mut out, "error: out of memory\n"))
        }
        Err(_) => usage(&mut out),
    };
    ExitCode::from(status.code())
}
