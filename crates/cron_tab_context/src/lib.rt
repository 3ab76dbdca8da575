//! What is probably a mistake in a crontab's entries, judged by what is around them: the path of the
//! file, the other entries, the zone and the current instant.
#![tactic(auto)]

mod found;
mod listing;
mod system;
mod times;

pub use found::{ContextWarning, Found};
pub use listing::{Asked, list_found};
