//! When the entries of a crontab file fire: its entries in one agenda, and their fires in one
//! order. Fires are ordered by instant. At one instant the fire of the entry that was added first
//! comes first.
#![tactic(auto)]

mod adding;
mod changed_days;
mod error;
mod listing;
mod tab_entry;
mod tab_file;
mod texts;

pub use adding::{Clock, add_line, add_lines, changes_of};
pub use changed_days::{ChangedDay, list_changes};
pub use error::{LineError, ListError};
pub use listing::{TabFire, list_fires, next_fire};
pub use tab_entry::TabEntry;
pub use tab_file::TabFile;
pub use texts::{fire_second, fire_text};
