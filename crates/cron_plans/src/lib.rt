//! Plans: which fires of a schedule are left out, and where they are moved. A plan has rules of
//! days and schedules. All rules must allow a day, and what the schedules match is left out.
//!
//! ```text
//! let plan = Plan { without: &lunch, days: &rules, moves: Some(Way::Ahead) };
//! for fire in Fires::after(Table::of(schedules, &Some(plan)), now, &zone) { .. }
//! ```
#![tactic(auto)]

pub mod plan;
mod planned;
mod rest;
pub mod table;
