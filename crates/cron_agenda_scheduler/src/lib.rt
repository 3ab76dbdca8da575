//! The loop over an agenda, one step at a time or to its end: wait for the next fire, read the
//! clock, and run what is due, as late as each entry allows. A job may add and remove entries, and
//! so may the caller between two steps.
#![tactic(auto)]

mod job;
mod lateness;
pub mod laws;
mod picks;
mod steps;
mod stop;
mod turns;

pub use job::AgendaJob;
pub use lateness::{HasLateness, Lateness, Timely};
pub use steps::{run, step};
pub use stop::AgendaStop;
