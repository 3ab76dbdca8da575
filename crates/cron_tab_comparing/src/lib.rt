//! What differs between two crontabs: which entries are gone, which are new, and which match other
//! civil seconds. And which entries of one crontab run the same at the same times.
#![tactic(auto)]

mod entries;
mod keys;
pub mod report;
mod rows;
mod telling;
pub mod twins;
