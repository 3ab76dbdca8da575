//! Runs a job at each fire of a table, over any clock that can wait. A table is a schedule, or
//! another set of civil seconds. Each fire is run once, in order, none before its instant, and none
//! is lost, however the clock goes.
//!
//! ```text
//! let mut clock = MachineClock(&rt);
//! let plan = Plan {
//!     table: &schedule,
//!     zone: &zone,
//!     start: Start::After(clock.now()?),
//!     most: None,
//! };
//! plan.run(&mut clock, &mut |fire: Moment| println!(rt; "{fire}"))?;
//! ```
//!
//! A job that takes a `DueFire` in place of a `Moment` is run once for each match, also when the
//! clock changes.
#![tactic(auto)]

mod clock;
mod job;
pub mod laws;
mod machine;
mod plan;
mod runs;
mod stop;

pub use clock::{AlarmClock, wake_at};
pub use job::Job;
pub use machine::MachineClock;
pub use plan::{Plan, Start};
pub use stop::Stop;
