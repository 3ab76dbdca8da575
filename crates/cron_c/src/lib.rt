//! The C interface: calls that keep no state, over structs of numbers, texts and buffers that the
//! caller owns. Each call but `cron_c_version` returns the number of a `Status`. An instant is a
//! number of seconds since 1970-01-01T00:00:00Z. `include/cron_c.h` states what types can't, such
//! as that no pointer may be null.
#![tactic(auto)]

mod agenda;
mod agenda_tree;
mod buffer;
mod canonical_call;
mod crontab_call;
mod due_by_clock;
mod due_item;
mod due_text;
mod entry;
mod era;
mod era_table;
mod firing;
mod history;
mod history_calls;
mod history_clock;
mod history_dues;
mod history_runs;
mod item;
mod itemed;
pub mod laws;
mod line_call;
mod listing;
mod named;
mod parse_call;
mod places;
mod quartz_call;
mod rule_dues;
mod runs;
mod savings;
mod schedule;
mod searching;
mod status;
mod text;
mod union_calls;
mod union_dues;
mod version;
mod zone;
mod zone_file;
mod zone_source;

pub use agenda::{cron_c_agenda_begin, cron_c_agenda_next, cron_c_agenda_put};
pub use canonical_call::cron_c_canonical;
pub use crontab_call::cron_c_crontab_parse;
pub use due_text::cron_c_due_format;
pub use entry::CronEntry;
pub use era::CronEra;
pub use firing::{cron_c_fire_after, cron_c_fire_at, cron_c_fire_by};
pub use history_calls::{
    cron_c_history_check, cron_c_history_fire_after, cron_c_history_fire_at,
    cron_c_history_fire_by, cron_c_history_fires_between, cron_c_history_fires_past,
};
pub use history_dues::{
    cron_c_history_due_after, cron_c_history_due_by, cron_c_history_due_past,
    cron_c_history_dues_between, cron_c_history_dues_past,
};
pub use item::CronItem;
pub use line_call::cron_c_crontab_line_parse;
pub use listing::{cron_c_list_after, cron_c_list_before, cron_c_list_next, cron_c_list_prev};
pub use named::cron_c_zone_parse;
pub use parse_call::cron_c_parse;
pub use quartz_call::cron_c_quartz_parse;
pub use rule_dues::{
    cron_c_due_after, cron_c_due_by, cron_c_due_past, cron_c_dues_between, cron_c_dues_past,
};
pub use runs::{cron_c_fires_between, cron_c_fires_past};
pub use schedule::CronSchedule;
pub use searching::{cron_c_after, cron_c_before, cron_c_next, cron_c_prev};
pub use text::cron_c_format;
pub use union_calls::{
    cron_c_union_fire_after, cron_c_union_fire_by, cron_c_union_fires_between,
    cron_c_union_fires_past,
};
pub use union_dues::{
    cron_c_union_due_after, cron_c_union_due_by, cron_c_union_due_past, cron_c_union_dues_between,
    cron_c_union_dues_past,
};
pub use version::cron_c_version;
pub use zone::{CronTurn, CronZone};
pub use zone_file::cron_c_history_read;
pub use zone_source::cron_c_zone_source;
