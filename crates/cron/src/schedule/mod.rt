//! Schedules, and walks over the moments that they mean in a zone.

mod expression;
mod inputs;
mod json;
mod play;
mod set;
mod walk;
mod walks;

pub use cron_moments::moment::Moment;
pub use expression::Schedule;
pub use play::Turn;
pub use walk::{
    OwnedRevScheduleIterator, OwnedScheduleIterator, RevScheduleIterator, ScheduleIterator,
};
