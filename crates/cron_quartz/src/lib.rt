//! Quartz's cron expressions: what one means, as a union of at most twelve schedules, and why
//! another text is refused.
#![tactic(auto)]

mod days;
mod expression;
mod faults;
mod field;
mod forms;
mod items;
mod lengths;
mod numbers;
mod schedules;
mod sets;
mod texts;

pub use days::Days;
pub use expression::read;
pub use faults::{Fault, Reason, RefusedItem};
pub use field::Field;
pub use forms::schedules_of;
pub use schedules::Expression;
