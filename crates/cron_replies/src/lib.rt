//! How a subcommand ends, over any writer, and the forms of fires that it writes.
#![tactic(auto)]

pub mod form;
pub mod sending;
pub mod status;
