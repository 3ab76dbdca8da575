//! The lines of crontabs: what a line is (blank, a comment, a setting, an entry), why a line is
//! refused, and the lines of a file.
#![tactic(auto)]

mod bytes;
mod entries;
mod files;
mod kinds;
mod lines;
mod percent;
mod refusals;
mod settings;
mod zones;

pub use files::{FileLine, Lines};
pub use kinds::{Crontab, Entry, Line, Setting};
pub use lines::read_line;
pub use percent::Unescaped;
pub use refusals::Refusal;
pub use zones::{NamedZone, names_no_zone, zone_below};
