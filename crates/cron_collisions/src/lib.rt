//! The pairs of fires of two lists that collide, where all fires last equally long.
#![tactic(auto)]

mod below;
mod collisions;
pub mod laws;
mod order;

pub use collisions::{Collisions, collisions_of};
pub use order::ascends;
