//! What `crontool rota` does, over any writer and any zone files: it lists the shifts of people who
//! take turns on duty, or says who is on duty at an instant.
#![tactic(auto)]

mod cells;
mod columns;
pub mod gathering;
pub mod people;
mod plan;
mod report;
mod request;
pub mod rota;
mod rows;
pub mod swap_error;
mod swaps;
pub mod trouble;
