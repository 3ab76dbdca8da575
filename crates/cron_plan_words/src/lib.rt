//! The options of a plan, as a command line has them: its rules of days, and lines that tell of it.
#![tactic(auto)]

pub mod options;
pub mod rules;
pub mod steps;
pub mod telling;
