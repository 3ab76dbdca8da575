//! Cron expressions and the schedules that they mean.
//!
//! ```text
//! let schedule = Schedule::from_str(rt.alloc(), "0 30 9 * * Mon-Fri")?;
//! let zone = TimeZone::posix("CST6CDT,M3.2.0,M11.1.0")?;
//! let start = "2024-01-01T00:00:00Z".parse::<Timestamp>()?;
//! for moment in schedule.after(start, &zone).take(2) {
//!     println!(rt; "{moment}")?; // 2024-01-01 09:30:00 -06:00, 2024-01-02 09:30:00 -06:00
//! }
//! ```
#![tactic(auto)]

pub use cron_units::error;

pub mod laws;
mod parsing;
pub mod queries;
pub mod schedule;
pub mod time_unit;

pub use schedule::{OwnedScheduleIterator, Schedule, ScheduleIterator};
pub use time_unit::TimeUnitSpec;
