//! The time of a fire as a person reads it: as a terminal shows it, or by a format of `strftime`.
#![tactic(auto)]

mod format;
mod looks;
mod times;
mod waits;

pub use format::try_format;
pub use looks::Look;
pub use times::{Times, clock_at, is_out_of_memory, push_time};
