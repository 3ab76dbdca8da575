//! What `crontool` answers about windows, over any writer and any zone files: `windows` lists those
//! between two instants, and `inside` says whether one is open at an instant.
#![tactic(auto)]

pub mod gathering;
pub mod inside;
mod listing;
mod row;
mod state;
mod text;
mod told;
pub mod windows;
pub mod words;
