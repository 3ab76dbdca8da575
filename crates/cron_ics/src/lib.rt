//! The fires of expressions as a calendar of RFC 5545, with one event for each fire.
#![tactic(auto)]

pub mod calendar;
pub mod domain;
pub mod entry;
pub mod error;
mod escape;
mod event;
mod fires;
mod fold;
pub mod laws;
pub mod pages;
mod span;
pub mod spans;
mod stamp;
pub mod write;
