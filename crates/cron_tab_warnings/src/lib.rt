//! Warnings of crontab lines: lines that can be read, but are probably a mistake.
#![tactic(auto)]

mod clocks;
mod days;
mod files;
mod fires;
mod items;
mod messages;
mod texts;
mod warnings;
mod words;

pub use clocks::follows_clock;
pub use files::{LINE_WARNINGS, LineWarning, all_line_warnings_are_listed, warns_line};
pub use fires::{never_runs, never_runs_by_fields};
pub use texts::text_of;
pub use warnings::{WARNINGS, Warning, all_are_listed, warns};
