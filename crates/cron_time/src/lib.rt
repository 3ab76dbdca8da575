//! The civil seconds that match the seven sets of a schedule, and their readings in a zone. A
//! reading is a civil second with an offset at which the zone's clock shows it. `search` finds the
//! nearest match that has a reading, and `walk` steps from reading to reading.
#![tactic(auto)]

pub mod matching;
pub mod search;
pub mod walk;
