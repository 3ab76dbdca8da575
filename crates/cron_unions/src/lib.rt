//! Several schedules as one set: the civil seconds that match any of them, each once; and several
//! sets of any kind.
#![tactic(auto)]

mod any_of;
mod apart;
mod covering;
mod heads;
pub mod laws;
pub mod members;
mod merge;
mod nearest;
mod union;
pub mod units;

pub use any_of::AnyOf;
pub use union::{Union, UnionCursor};
