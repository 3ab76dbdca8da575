//! The subcommand `systemd` of `crontool`, which writes units for the entries of a crontab.
#![tactic(auto)]

mod files;
mod names;
pub mod systemd;
