//! How often schedules fire: the number of fires on each of some civil days, or in each civil hour.
#![tactic(auto)]

pub mod counts;
mod day;
mod hour;
pub mod laws;
mod span;
mod times;
pub mod walk;
