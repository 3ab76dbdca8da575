//! Runs the entries of crontabs, by any clock and to any writer. The entries are in an agenda,
//! which knows when each fires next. A loop over it writes the text of each entry, its command or a
//! line for a shell, at its fire.
#![tactic(auto)]

mod alarm;
mod crontabs;
mod endings;
mod failure;
mod files;
mod following;
mod fronts;
pub mod laws;
mod loading;
mod looks;
mod loop_over;
mod noted;
mod noted_run;
mod orders;
mod run_clock;
mod writer;

pub use alarm::{Alarm, FireWriter, ring_at};
pub use crontabs::{Crontabs, NamedOpen, Tab, ZoneOpener};
pub use failure::Failure;
pub use files::run_files;
pub use following::follow;
pub use looks::FollowError;
pub use noted::{Counts, Noted, entry_of, read_note, take_one};
pub use noted_run::run_noted;
pub use orders::{RunOrders, TabFile};
pub use run_clock::{Changing, EntryClock, Interruption, Notebook, RunClock};
pub use writer::TabWriter;
