//! A printer that writes a text to any writer and flushes it, and the lines of fires.
#![tactic(auto)]

pub mod lined;
pub mod printer;
