//! Calendars of months: how many fires each day has, below the day of the month and in the column
//! of its day of the week.
#![tactic(auto)]

mod cells;
pub mod changes;
mod days;
pub mod grid;
pub mod html;
mod json;
pub mod laws;
mod lines;
pub mod months;
pub mod pages;
pub mod plans;
mod times;
