//! The entries of a crontab as units of systemd: a timer and a service for each, or why there are
//! none.
#![tactic(auto)]

mod entries;
mod made;
mod units;
mod zones;

pub use entries::{Asked, list_made};
pub use made::{LineMade, Made, Units, Unsaid};
pub use zones::zone_word;
