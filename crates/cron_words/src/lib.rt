//! One English sentence for a union of schedules, and waits in words.
#![tactic(auto)]

mod clocks;
mod days;
mod items;
pub mod laws;
mod lists;
mod nth;
mod progressions;
pub mod sentence;
mod shapes;
mod times;
pub mod waits;
