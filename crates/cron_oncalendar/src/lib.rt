//! Lines of systemd's `OnCalendar` for unions of schedules.
#![tactic(auto)]

mod components;
pub mod lines;
