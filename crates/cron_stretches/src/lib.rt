//! Stretches of seconds that share a value, laws of them, and the nearest fires around a second.
#![tactic(auto)]

pub mod fires;
pub mod laws;
pub mod stretch;
