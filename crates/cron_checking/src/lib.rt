//! A checker of files whose lines are cron expressions.
#![tactic(auto)]

pub mod check;
pub mod line;
mod line_reader;
pub mod output;
pub mod readable;
pub mod short;
