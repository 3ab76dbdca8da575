//! The canonical text of seven sets, made without allocating memory.
#![tactic(auto)]

mod filled;
pub mod laws;
mod numbers;
mod text;

pub use text::{Text, canonical_text, text_of};
