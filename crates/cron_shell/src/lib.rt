//! Lines that a POSIX shell runs in the background: a command with its variables, its shell and its
//! input. They are quoted words, which the shell doesn't interpret.
#![tactic(auto)]

pub mod laws;
mod lines;
mod words;

pub use lines::{ShellJob, Variable, cut_line, push_line, push_log_front};
pub use words::push_word;
