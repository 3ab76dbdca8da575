//! Due fires: each matching civil second once, also where a clock changes. It is due when the clock
//! first shows it or a later one.
#![tactic(auto)]

pub mod ahead;
pub mod clock;
pub mod dues;
pub mod fire;
pub mod laws;
mod numbers;
pub mod once;
pub mod reach;
pub mod reader;
pub mod steady;
pub mod text;
pub mod way_to;
