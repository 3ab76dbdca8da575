//! Laws of Quartz's expressions: the schedules of each form of days match exactly the days that the
//! form names, ranges come round, and each text has only one outcome.
#![tactic(auto)]

pub mod laws;
