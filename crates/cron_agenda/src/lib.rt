//! Many jobs: entries that are added and removed while a program runs, and the fires of all of them
//! in one order. Each entry has a set of civil seconds, a zone and a rule at clock changes.
#![tactic(auto)]

mod agenda;
mod earliest;
mod entry;
mod error;
mod fire;
pub mod laws;
mod next;
mod slots;
mod words;

pub use agenda::Agenda;
pub use entry::Entry;
pub use error::{AddError, ZoneMissing};
pub use fire::{AgendaFire, EntryFire};
