//! The two look-ups of a zone, of civil seconds and of instants, and when they agree; and stretches
//! of civil seconds that a zone reads at the same offsets.
#![tactic(auto)]

mod agreement;
pub mod clock;
pub mod laws;
mod offsets;
mod rule;
mod season;
pub mod stretch;
mod table;
mod transitions;
mod years;

pub use agreement::lookups_agree;
