//! Codes of what a check of expressions and crontabs finds: short words that stay the same, with a
//! title and what helps.
#![tactic(auto)]

mod refusals;
mod rules;

pub use refusals::{code_of_crontab, code_of_line, code_of_quartz, code_of_text};
pub use rules::RULES;
