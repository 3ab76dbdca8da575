//! When crontabs run: the law that the schedules of an expression match exactly when its fields say
//! so.
#![tactic(auto)]

pub mod laws;
