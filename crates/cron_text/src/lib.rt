//! The texts of cron expressions: what they mean, and why others mean nothing.
#![tactic(auto)]

mod faults;
mod field_texts;
mod items;
mod plain;
mod shorthands;
mod symbols;
mod texts;
mod tokens;

pub use faults::{Fault, fault_error};
pub use texts::{fault_of, no_ordinals, read_into};
pub use tokens::is_space;
