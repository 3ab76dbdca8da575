//! Items of crontabs whose number a name decides, so that many entries don't fire at once: `H`,
//! `H/15` and `H(0-29)` as Jenkins has them, and `0~29` of cronie.
#![tactic(auto)]

mod forms;
mod places;
mod texts;

pub use texts::{Spread, spread_items};
