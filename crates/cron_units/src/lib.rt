//! The units of a schedule, their sets, and what the items of a field denote in them.
#![tactic(auto)]

pub mod error;
pub mod fields;
pub mod specifier;
pub mod time_unit;
pub mod way;
