//! The words of `crontool`'s command line: its subcommands with their options, what they ask for,
//! and how shells complete them.
#![tactic(auto)]

mod calendars;
pub mod commands;
pub mod completions;
mod expressions;
mod missing;
mod plans;
mod runs;
mod subcommands;
mod tabs;
mod words;
