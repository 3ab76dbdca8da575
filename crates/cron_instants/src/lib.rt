//! The fires of a set of civil seconds at the instants when a clock shows them. This crate finds
//! the earliest fire after an instant or a fire, and the latest at or before an instant or before a
//! fire. It also has the rule for runs over these fires.
#![tactic(auto)]

pub mod as_shown;
mod first;
pub mod instants;
pub mod item;
mod joined;
pub mod laws;
mod mark;
pub mod monotone;
mod nearest;
mod offset_range;
mod periods;
mod shown;
