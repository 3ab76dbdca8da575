//! Subcommands of `crontool` that wait for fires: `run` for those of crontabs, `alarm` for those of
//! an expression.
#![tactic(auto)]

pub mod alarm;
mod files;
mod follow;
pub mod run;
mod state;
mod watch;
