//! Names that are nearly right: which name of a month, a day or a zone a word most likely means.
#![tactic(auto)]

mod calendar_names;
mod nearness;
mod zone_names;

pub use calendar_names::{Names, NoName, crontab_word, own_word, quartz_word};
pub use nearness::nearest;
pub use zone_names::zone_near;
