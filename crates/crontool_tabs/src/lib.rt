//! Subcommands of `crontool` on crontabs: what is wrong with them, when their entries fire, what
//! these missed, which collide, and how two crontabs differ.
#![tactic(auto)]

pub mod calendar;
pub mod check;
pub mod collisions;
pub mod compare;
pub mod explain;
pub mod ics;
pub mod list;
pub mod missed;
pub mod spans;
