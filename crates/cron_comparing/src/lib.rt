//! Where two unions of schedules match, over the civil seconds of 1970 to 2100. No zone is queried,
//! and nothing is allocated.
#![tactic(auto)]

pub mod common;
pub mod difference;
mod earlier;
mod lengths;
mod products;
