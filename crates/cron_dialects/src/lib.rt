//! Laws of the texts that mean something both to a crontab and to this library.
#![tactic(auto)]

pub mod laws;
