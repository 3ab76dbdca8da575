//! The items of a cron expression as lines: a run from a start, a page after an item, and the
//! answer to the arguments of a command line. Rows of `cron_test_vectors` test it, and tests of
//! `cron_next` test it without memory.
#![tactic(auto)]

pub mod answer;
pub mod arguments;
mod kept_line;
pub mod page;
pub mod run;
