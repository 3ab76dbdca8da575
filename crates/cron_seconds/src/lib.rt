//! Sets of civil seconds, the rules that say when they fire, and runs over their fires.
#![tactic(auto)]

pub mod back_run;
pub mod civil_seconds;
pub mod laws;
pub mod rule;
pub mod run;
pub mod schedule;
