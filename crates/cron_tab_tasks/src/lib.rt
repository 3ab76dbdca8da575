//! The text that is written for a crontab's entries when they fire. It is a command, or a line that
//! a shell runs with the entry's input and the settings above the entry. The messages about refused
//! lines are here too.
#![tactic(auto)]

mod names;
mod orders;
mod refused;
mod tasks;
mod texts;
mod values;

pub use orders::{Form, Orders, PLAIN, Ways, names_fires};
pub use refused::push_refusals;
pub use tasks::{push_defaults, push_variable, text_in};
pub use texts::input_text;
pub use values::{shell_of, zone_of};
