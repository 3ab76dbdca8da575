//! Walks over the items of a timeline, which are the readings of the civil seconds that match: the
//! state of a walk, and what a call does.

mod bounds;
pub mod resume;
pub mod state;
pub mod step;
