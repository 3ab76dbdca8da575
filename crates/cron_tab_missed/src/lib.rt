//! What the entries of crontabs missed: for each how many fires came after an instant, up to and
//! with now, and the first and the last of them.
#![tactic(auto)]

mod counting;
mod entries;
mod error;
pub mod report;
mod rows;

pub use counting::{Ends, Missed};
pub use entries::{Asked, Since, TabMissed};
pub use error::MissedError;
