//! Units of systemd: a timer, and the service that it starts. systemd reads back what they are made
//! of.
#![tactic(auto)]

mod checks;
mod error;
pub mod laws;
mod service;
mod timer;
mod values;

pub use error::UnitError;
pub use service::{Service, service_text};
pub use timer::timer_text;
