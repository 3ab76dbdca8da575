//! Single civil seconds and dates: their numbers, their readings in a zone, and moments with their
//! texts.
#![tactic(auto)]

pub mod calendar;
pub mod civil;
pub mod line;
pub mod moment;
pub mod parts;
pub mod readings;
pub mod zone;
