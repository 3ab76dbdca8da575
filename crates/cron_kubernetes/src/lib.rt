//! The schedules of Kubernetes' CronJobs: what five fields or a descriptor mean, as one schedule or
//! two, and why another text is refused.
#![tactic(auto)]

mod durations;
mod faults;
mod fields;
mod items;
mod numbers;
mod schedules;
mod texts;

pub use cron_crontab::Field;
pub use faults::{Fault, Reason, RefusedItem};
pub use schedules::Schedules;
pub use texts::{Expression, read};
