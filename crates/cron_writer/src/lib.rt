//! A writer that remembers whether it failed, and lines that are gathered before they are passed to
//! it.
#![tactic(auto)]

mod block;
pub mod gathered;
pub mod watchable;
pub mod watched;
