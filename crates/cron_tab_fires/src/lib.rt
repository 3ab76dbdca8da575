//! The entries of crontabs, each with its fires between two instants.
#![tactic(auto)]

mod entries;
mod error;
mod fires;
pub mod laws;

pub use entries::{Asked, TabFires, add_fires};
pub use error::FiresError;
