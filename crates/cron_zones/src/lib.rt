//! Zones by name: `UTC`, a rule text, a name of the time zone database, or the machine's own zone.
//! A definition says which file a text names, and the caller supplies the means to read it.
#![tactic(auto)]

pub mod error;
pub mod files;
pub mod machine;
pub mod names;
pub mod open;
pub mod source;
pub mod zone;
