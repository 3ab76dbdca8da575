//! The expressions of crontabs: what five fields or a nickname mean, as one schedule or two, and
//! why another text is refused.
#![tactic(auto)]

mod faults;
mod field;
mod fields;
mod items;
mod numbers;
mod schedules;
mod steps;
mod texts;
mod words;

pub use faults::{Fault, Reason, RefusedItem};
pub use field::Field;
pub use items::begins_with_star;
pub use schedules::Schedules;
pub use steps::{Item, read_steps};
pub use texts::{Expression, begins_with_at, read};
pub use words::{cut_at, next_word};
