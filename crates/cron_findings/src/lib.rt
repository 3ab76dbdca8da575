//! Findings of a check of configuration files, written in the formats that editors and services read.
#![tactic(auto)]

mod escapes;
mod finding;
mod github;
mod objects;
mod places;
mod report;
mod sarif;
mod shown;
mod texts;

pub use finding::{Finding, Format, Hint, Rule, Severity};
pub use places::{characters, column, end_column, last_column};
pub use report::{push_between, push_end, push_finding, push_head, push_report};
