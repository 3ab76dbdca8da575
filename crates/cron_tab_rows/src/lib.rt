//! The parts of rows that tell of crontabs' entries, as cells of text and as members of JSON.
#![tactic(auto)]

pub mod cells;
pub mod members;
pub mod object;
pub mod source;
