//! Rows for the entries of crontabs that collide, where all their fires last equally long. Two
//! fires collide if each begins before the other ends.
#![tactic(auto)]

mod pairs;
pub mod report;
mod rows;
